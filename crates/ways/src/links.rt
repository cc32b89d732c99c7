// A row on the way, and its link.
ghost use Rattle.std.specs.Prelude.{◌≡◌, ◌≤◌};
ghost use Rattle.format.specs.Rows.{rows_in};
ghost use Rattle.format.specs.Addresses.{child_of, along as along_in};
ghost use Rattle.format.specs.Answers.{found};
ghost use Rattle.ways.specs.Needs.{fits_of};

use crate::needs::Need;
use format::refusals::Refusal;
use rows::load;

// A row whose container's link is `stop`: it stands before `stop`, it is what is needed, and its link goes up and does not pass
// `stop`; the link.
pub fn along(rows: &[u32], need: Need, stop: usize, row: usize) -> Result<usize, Refusal>
    requires { stop ≤ rows_in rows.now }
    ensures { found result ≡ along_in rows.now (fits_of need) stop row }
{
    if stop <= row {
        return Err(Refusal::RowsDontFit);
    }
    let r = load(rows, row);
    let link = r.link as usize;
    if !need.fits(r) || link <= row || stop < link {
        return Err(Refusal::RowsDontFit);
    }
    Ok(link)
}

// The same of a row that a container holds: it names the container as its parent.
pub fn along_child(
    rows: &[u32],
    container: usize,
    need: Need,
    stop: usize,
    row: usize,
) -> Result<usize, Refusal>
    requires { stop ≤ rows_in rows.now }
    ensures { found result ≡ along_in rows.now (child_of container (fits_of need)) stop row }
{
    let parent = load(rows, row).parent as usize;
    if parent == 0 || parent - 1 != container {
        return Err(Refusal::RowsDontFit);
    }
    along(rows, need, stop, row)
}
