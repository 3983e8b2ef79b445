//! The answer: the best expressions, and the marks of all.
ghost use Rattle.std.specs.Prelude.{◌≡◌, ◌≤◌, length, map, IfOk, IsTrue, OnOk};
ghost use Rattle.json_out.specs.Texts.{array_text};
ghost use Rattle.json_out.specs.Writer.{blank, is_whole, put_value, takes_value};
ghost use Rattle.top_match.specs.Certificate.{marks_of};
ghost use Rattle.top_match.specs.Top.{top_list};
ghost use Rattle.which_read.specs.Judged.{judged};
ghost use Rattle.which_read.specs.Request.{Request};
ghost use Rattle.which_run.specs.Texts.{best_text, mark_text, one_text, scored_text};

use json_out::Writer;
use rtb_num::Txt;
use std::alloc::{AllocError, Global};
use top_match::{Mark, Scored, marks_from, top_from};
use which_read::Judged;

// The best expressions, and the mark of each expression.
pub(crate) fn answer_text(alloc: Global, asked: Judged) -> Result<Txt, AllocError>
    requires few { length asked.reasons ≤ 4096 }
    ensures { IfOk result (λ t. (r : Request) → asked ≡ judged r → t ≡ best_text (top_list r.expressions r.assignment r.n) (marks_of r.expressions r.assignment (top_list r.expressions r.assignment r.n))) }
{
    let Judged { n, reasons } = asked;
    let best = top_from(alloc, &reasons, n)?;
    let marks = marks_from(reasons, &best);
    best_text(alloc, best.as_slice(), marks.as_slice())
}

// The text of these and of all marks.
fn best_text(alloc: Global, best: &[Scored], marks: &[Mark]) -> Result<Txt, AllocError>
    ensures { IfOk result (λ t. t ≡ best_text best.now marks.now) }
{
    let mut writer = Writer::with_room(alloc, room_for(best.len(), marks.len()));
    let done = put_answer(&mut writer, best, marks);
    finished(writer, done)
}

// Mostly enough bytes for what stands around the lists.
const AROUND: usize = 64;

// Mostly enough bytes for one of the best.
const BEST: usize = 48;

// Mostly enough bytes for a mark.
const MARK: usize = 16;

// Mostly enough bytes for so many of the best and so many marks.
fn room_for(best: usize, marks: usize) -> usize {
    let listed = best.saturating_mul(BEST);
    marks
        .saturating_mul(MARK)
        .saturating_add(listed)
        .saturating_add(AROUND)
}

// What was written, where all of it could be.
fn finished(writer: Writer, done: Result<(), AllocError>) -> Result<Txt, AllocError>
    requires { OnOk done (IsTrue (is_whole writer)) }
    ensures { (t : _) → OnOk done (writer.text ≡ t) → IfOk result (λ r. r ≡ t) }
{
    done?;
    Ok(writer.finish())
}

// Writes the object of the answer, before which nothing is written.
fn put_answer(writer: &mut Writer, best: &[Scored], marks: &[Mark]) -> Result<(), AllocError>
    requires { writer.old ≡ blank }
    ensures whole { OnOk result (IsTrue (is_whole writer.new)) }
    ensures text { OnOk result (writer.new.text ≡ best_text best.now marks.now) }
{
    writer.obj()?;
    writer.name(b"top")?;
    put_best(writer, best)?;
    writer.name(b"proof")?;
    put_marks(writer, marks)?;
    writer.end()?;
    Ok(())
}

// Writes the best expressions, as an array.
fn put_best(writer: &mut Writer, best: &[Scored]) -> Result<(), AllocError>
    requires { IsTrue (takes_value writer.old) }
    ensures { OnOk result (writer.new ≡ put_value writer.old (array_text (map scored_text best.now))) }
{
    writer.arr()?;
    for scored in best {
        put_scored(writer, *scored)?;
    }
    writer.end()?;
    Ok(())
}

fn put_scored(writer: &mut Writer, scored: Scored) -> Result<(), AllocError>
    requires { IsTrue (takes_value writer.old) }
    ensures { OnOk result (writer.new ≡ put_value writer.old (scored_text scored)) }
{
    writer.obj()?;
    writer.put_number(b"expression", scored.number as u64)?;
    writer.put_number(b"score", scored.score)?;
    writer.end()?;
    Ok(())
}

// Writes the marks, as an array.
fn put_marks(writer: &mut Writer, marks: &[Mark]) -> Result<(), AllocError>
    requires { IsTrue (takes_value writer.old) }
    ensures { OnOk result (writer.new ≡ put_value writer.old (array_text (map mark_text marks.now))) }
{
    writer.arr()?;
    for mark in marks {
        put_mark(writer, *mark)?;
    }
    writer.end()?;
    Ok(())
}

fn put_mark(writer: &mut Writer, mark: Mark) -> Result<(), AllocError>
    requires { IsTrue (takes_value writer.old) }
    ensures { OnOk result (writer.new ≡ put_value writer.old (mark_text mark)) }
{
    match mark {
        Mark::Chosen => writer.text(b"chosen"),
        Mark::False { clause } => put_one(writer, b"false", u64::from(clause)),
        Mark::Later { score } => put_one(writer, b"score", score),
    }
}

// Writes an object with a number as its only member.
fn put_one(writer: &mut Writer, name: &[u8], n: u64) -> Result<(), AllocError>
    requires { IsTrue (takes_value writer.old) }
    ensures { OnOk result (writer.new ≡ put_value writer.old (one_text name.now n)) }
{
    writer.obj()?;
    writer.put_number(name, n)?;
    writer.end()?;
    Ok(())
}
