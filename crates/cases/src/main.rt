// Runs a table of cases, one to a line of standard input, and answers each with a line.
// A request has five fields, with a tab between them: title, schema, operation, capacity and variables, which are JSON.
// With `json`, `literal` or `sheet` before the variables, these are read so; with no such word, JSON may hold tabs.
// A text has three: title, what it is (`json`, `literal` or `sheet`) and the text, which is read and shown.
// In the texts `^N^text^` stands for `text` N times, in it `\i` for the number of the turn, and `\xHH` for a byte.
#![tactic(auto)]

mod answer;
mod table;
#[cfg(test)]
mod tests;
mod value;

use anyhow::anyhow;
use std::alloc::Global;
use std::io::{BufRead, BufReader};
use table::{Line, Misread};

// The title of a case and its answer; a line that is not understood is an error.
fn line(heap: Global, text: &[u8]) -> anyhow::Result<String> {
    match table::read(heap, text) {
        Ok(Line { title, asked }) => {
            let title = answer::characters(heap, title.as_slice())?;
            let answer = answer::answer(heap, &asked)?;
            Ok(format!(in heap; "{title}: {answer}")?)
        }
        Err(Misread::Wrong) => Ok(String::from_str(heap, "error")?),
        Err(Misread::NoMemory) => Err(anyhow!("no memory")),
    }
}

fn run(rt: &HostRuntime) -> anyhow::Result<()> {
    let heap = rt.alloc();
    for text in BufReader::new(heap, rt.stdin())?.split(heap, b'\n') {
        let text = text?;
        let said = line(heap, text.as_slice())?;
        println!(rt; "{said}")?;
    }
    Ok(())
}

fn main(rt: HostRuntime) -> anyhow::Result<()> {
    run(&rt)
}
