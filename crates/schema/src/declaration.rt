// What follows the name of a variable or of a field: its type, and its default if any.
ghost use Rattle.std.specs.Prelude.{◌≡◌, ◌≤◌, IfOk, IfSome, vec_len};
ghost use Rattle.source.specs.Table.{table_of, Keeps};
ghost use Rattle.schema.specs.DeclarationTold.{DeclaredBy};
ghost use Rattle.schema.specs.Declarations.{ReadsDeclared, ReadsDefault};
ghost use Rattle.schema.specs.Documents.{Label};
ghost use Rattle.schema.specs.Holds.{DefaultHeld};
ghost use Rattle.schema.specs.Reading.{Onward};
ghost use Rattle.schema.specs.Told.{Told};

use crate::tokens::Tokens;
use crate::types;
use crate::types::Type;
use source::nodes::Nodes;
use text::fault::Fault;
use text::token::Token;

#[derive(Clone, Copy)]
pub struct Declaration<'a> {
    pub ty: Type<'a, ()>,
    // The cursor of the default among the nodes.
    pub default: Option<usize>,
}

// The type after a colon, and the default after it.
pub fn declared<'a>(tokens: &mut Tokens<'a>, nodes: &mut Nodes) -> Result<Declaration<'a>, Fault>
    ensures told { (l : Label) → Told 1 (λ N. ReadsDeclared N l) (DeclaredBy l (table_of tokens.old.text.now nodes.new)) tokens.old tokens.new result }
    ensures keeps { IfOk result (λ _. Keeps 0 (table_of tokens.old.text.now nodes.old) (table_of tokens.old.text.now nodes.new)) }
    ensures onward { IfOk result (λ _. Onward 1 tokens.old tokens.new) }
    ensures levels { IfOk result (λ d. d.ty.shape.levels ≤ 8) }
    ensures default { IfOk result (λ d. IfSome d.default (λ root. root ≡ vec_len nodes.old.list)) }
{
    tokens.expect(Token::Colon)?;
    let ty = types::read_type(tokens)?;
    let default = default_value(tokens, nodes)?;
    Ok(Declaration { ty, default })
}

// The default that comes next, if there is one.
fn default_value(tokens: &mut Tokens<'_>, nodes: &mut Nodes) -> Result<Option<usize>, Fault>
    ensures told { Told 0 ReadsDefault (DefaultHeld (table_of tokens.old.text.now nodes.new)) tokens.old tokens.new result }
    ensures keeps { IfOk result (λ _. Keeps 0 (table_of tokens.old.text.now nodes.old) (table_of tokens.old.text.now nodes.new)) }
    ensures default { IfOk result (λ default. IfSome default (λ root. root ≡ vec_len nodes.old.list)) }
{
    if tokens.eat(Token::Equals)?.is_none() {
        return Ok(None);
    }
    Ok(Some(tokens.literal(nodes)?))
}
