// Prints the sheet of a schema, an operation and its variables, or the number of the refusal.
#![tactic(auto)]

use anyhow::anyhow;
use coercion::rule::AcceptAll;
use sheet::fault::RequestFault;
use sheet::held::{GREATEST_CAPACITY, Sheet};
use std::alloc::AllocError;
use std::path::Path;
use std::{env, fs};
use validation::fault::MakeFault;
use validation::{make_operation, make_schema};

// Why there is no sheet.
#[derive(Drop)]
enum Stop {
    Refused(u8),
    Failed(anyhow::Error),
}

impl From<MakeFault> for Stop {
    fn from(fault: MakeFault) -> Stop {
        refused(fault.number())
    }
}

impl From<RequestFault> for Stop {
    fn from(fault: RequestFault) -> Stop {
        refused(fault.number())
    }
}

impl From<AllocError> for Stop {
    fn from(_error: AllocError) -> Stop {
        refused(None)
    }
}

impl From<anyhow::Error> for Stop {
    fn from(error: anyhow::Error) -> Stop {
        Stop::Failed(error)
    }
}

// A refusal has a number; want of memory has none.
fn refused(number: Option<u8>) -> Stop {
    number.map_or_else(|| Stop::Failed(anyhow!("no memory")), Stop::Refused)
}

// The folder that the first argument names, or the working directory.
fn folder(rt: &HostRuntime) -> anyhow::Result<String> {
    match env::args(rt)?.nth(1) {
        Some(name) => Ok(name),
        None => Ok(String::from_str(rt.alloc(), ".")?),
    }
}

// The bytes of a file of the folder.
fn read(rt: &HostRuntime, folder: &str, file: &str) -> anyhow::Result<Vec<u8>> {
    let heap = rt.alloc();
    let path = Path::new(folder).join(heap, file)?;
    let name = path.as_str();
    fs::read(rt, name).try_map_err(|error| Ok(anyhow!(format!(in heap;
        "cannot read {name}: {error}"
    )?)))
}

// The sheet of the three files of a folder, in hexadecimal.
fn sheet(rt: &HostRuntime, folder: &str) -> Result<String, Stop> {
    let heap = rt.alloc();
    let text = read(rt, folder, "schema.graphql")?;
    let schema = make_schema(heap, text.as_slice())?;
    let text = read(rt, folder, "operation.graphql")?;
    let operation = make_operation(heap, &schema, text.as_slice())?;
    let text = read(rt, folder, "variables.json")?;
    let mut sheet = Sheet::new(heap, &schema, &operation, AcceptAll, GREATEST_CAPACITY)?;
    sheet.load_json(heap, text.as_slice())?;
    Ok(hex::encode(heap, sheet.bytes())?)
}

fn run(rt: &HostRuntime) -> anyhow::Result<()> {
    let folder = folder(rt)?;
    match sheet(rt, folder.as_str()) {
        Ok(digits) => println!(rt; "{digits}")?,
        Err(Stop::Refused(number)) => println!(rt; "refused {number}")?,
        Err(Stop::Failed(error)) => return Err(error),
    }
    Ok(())
}

fn main(rt: HostRuntime) -> anyhow::Result<()> {
    run(&rt)
}
