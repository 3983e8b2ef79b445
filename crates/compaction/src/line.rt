//! The line that tells what a compaction kept and forgot.
ghost use Rattle.std.specs.Prelude.{◌≡◌, ◌++◌, OnOk};
ghost use Rattle.compaction.specs.Lines.{compact_line, counts_line};

use auction_core::Core;
use rtb_num::{Txt, write_decimal};
use std::alloc::AllocError;

/// Appends the line that tells the exchange. Where memory is refused, a front of it may stand there.
pub(crate) fn put_line(core: &Core, line: &mut Txt) -> Result<(), AllocError>
    ensures { OnOk result (line.new ≡ line.old ++ compact_line core.now.state) }
{
    put_counts(core.book().sales(), core.book().forgotten(), line)
}

fn put_counts(sales: u64, forgotten: u64, line: &mut Txt) -> Result<(), AllocError>
    ensures { OnOk result (line.new ≡ line.old ++ counts_line sales forgotten) }
{
    line.extend(b"compacted sales=")?;
    write_decimal(sales, line)?;
    line.extend(b" forgotten=")?;
    write_decimal(forgotten, line)?;
    line.extend(b"\n")?;
    Ok(())
}
