//! The bodies of refusals.
ghost use Rattle.std.specs.Prelude.{◌≡◌, ◌∷◌, [], codes, decimal, IsTrue, IfOk};
ghost use Rattle.json_out.specs.Inside.{in_object};
ghost use Rattle.json_out.specs.Strings.{string_text};
ghost use Rattle.json_out.specs.Writer.{blank, can_end, end, is_whole, takes_name};
ghost use Rattle.refusal_text.specs.Refusals.{field_text};
ghost use Rattle.which_read.specs.Paths.{which_path};
ghost use Rattle.which_run.specs.Texts.{clause_text, cnf_fault_text, predicate_text, weight_text, which_fault_text};

use cnf_match::CnfFault;
use json_out::Writer;
use refusal_text::error_text;
use rtb_num::Txt;
use std::alloc::{AllocError, Global};
use which_read::{WhichFault, WhichField};

// The text of a JSON text that is no request; that of want of memory is empty.
pub(crate) fn which_fault_text(alloc: Global, fault: WhichFault) -> Result<Txt, AllocError>
    ensures { IfOk result (λ t. t ≡ which_fault_text fault) }
{
    match fault {
        WhichFault::NotObject => error_text(alloc, b"not-object"),
        WhichFault::Missing { field } => of_field(alloc, b"missing", field),
        WhichFault::WrongType { field } => of_field(alloc, b"wrong-type", field),
        WhichFault::Range { field } => of_field(alloc, b"range", field),
        WhichFault::Expression { number, fault } => cnf_fault_text(alloc, number, fault),
        WhichFault::Memory => Ok(Txt::new(alloc)),
    }
}

fn of_field(alloc: Global, word: &[u8], field: WhichField) -> Result<Txt, AllocError>
    ensures { IfOk result (λ t. t ≡ field_text word.now (which_path field)) }
{
    let path = path_of(alloc, field)?;
    with_field(alloc, word, path.as_bytes())
}

fn path_of(alloc: Global, field: WhichField) -> Result<Txt, AllocError>
    ensures { IfOk result (λ t. t ≡ which_path field) }
{
    let mut path = Txt::new(alloc);
    field.write(&mut path)?;
    Ok(path)
}

fn with_field(alloc: Global, word: &[u8], path: &[u8]) -> Result<Txt, AllocError>
    ensures { IfOk result (λ t. t ≡ field_text word.now path.now) }
{
    let mut writer = error(alloc, word)?;
    writer.put_text(b"field", path)?;
    close(writer)
}

// The text of what is no expression, by its number.
fn cnf_fault_text(alloc: Global, number: usize, fault: CnfFault) -> Result<Txt, AllocError>
    ensures { IfOk result (λ t. t ≡ cnf_fault_text number fault) }
{
    match fault {
        CnfFault::TooMany { clause, predicate } => {
            predicate_text(alloc, b"too-many", number, clause, predicate)
        }
        CnfFault::EmptyClause { clause } => clause_text(alloc, b"empty-clause", number, clause),
        CnfFault::UnknownAttr { clause, predicate } => {
            predicate_text(alloc, b"unknown-attr", number, clause, predicate)
        }
        CnfFault::EmptyList { clause, predicate } => {
            predicate_text(alloc, b"empty-list", number, clause, predicate)
        }
        CnfFault::Weight { at } => weight_text(alloc, number, at),
        CnfFault::Memory => Ok(Txt::new(alloc)),
    }
}

fn predicate_text(
    alloc: Global,
    word: &[u8],
    number: usize,
    clause: usize,
    predicate: usize,
) -> Result<Txt, AllocError>
    ensures { IfOk result (λ t. t ≡ predicate_text word.now number clause predicate) }
{
    let mut writer = error(alloc, word)?;
    writer.put_number(b"expression", number as u64)?;
    writer.put_number(b"clause", clause as u64)?;
    writer.put_number(b"predicate", predicate as u64)?;
    close(writer)
}

fn clause_text(alloc: Global, word: &[u8], number: usize, clause: usize) -> Result<Txt, AllocError>
    ensures { IfOk result (λ t. t ≡ clause_text word.now number clause) }
{
    let mut writer = error(alloc, word)?;
    writer.put_number(b"expression", number as u64)?;
    writer.put_number(b"clause", clause as u64)?;
    close(writer)
}

fn weight_text(alloc: Global, number: usize, at: usize) -> Result<Txt, AllocError>
    ensures { IfOk result (λ t. t ≡ weight_text number at) }
{
    let mut writer = error(alloc, b"weight")?;
    writer.put_number(b"expression", number as u64)?;
    writer.put_number(b"at", at as u64)?;
    close(writer)
}

// A refusal of which the word is written, and which takes further members.
fn error(alloc: Global, word: &[u8]) -> Result<Writer, AllocError>
    ensures value { IfOk result (λ w. w ≡ in_object blank ((codes "error", string_text word.now) ∷ [])) }
    ensures next { IfOk result (λ w. IsTrue (takes_name w)) }
{
    let mut writer = Writer::new(alloc);
    writer.obj()?;
    writer.put_text(b"error", word)?;
    Ok(writer)
}

// The text, once its object is ended.
fn close(mut writer: Writer) -> Result<Txt, AllocError>
    requires ends { IsTrue (can_end writer) }
    requires whole { IsTrue (is_whole (end writer)) }
    ensures { IfOk result (λ t. t ≡ (end writer).text) }
{
    writer.end()?;
    Ok(writer.finish())
}
