// Reading a record for Record in: its labels, and the corners of its rooms.
#![tactic(auto)]

ghost use Rattle.std.specs.Prelude.{◌≡◌};
ghost use Rattle.reading.specs.Answer.{reading_of};
ghost use Rattle.answers.specs.Corners.{CornersIn};
ghost use Rattle.answers.specs.Leaves.{LeavesIn};

use drawing::Corners;
use record::Refusal;

// Reads a record as `reading::read` does, into the corners of one struct, with as many places as the slice has for labels: the first
// refusal of the order whose cause it has; else how many labels it has, and of each room left and bottom. From index `earliest` on the
// labels, rights and tops are written too, where the slice has places for all of the record's labels; else they are left as they were.
pub fn read_into(
    record: &[u8],
    earliest: usize,
    labels: &mut [u8],
    corners: &mut Corners,
) -> Result<usize, Refusal>
    ensures answer { result ≡ reading_of «record».now }
    ensures leaves { LeavesIn result «record».now earliest labels.old corners.old labels.new corners.new }
{
    // A record has at most 255 labels.
    let places = labels.len().min(255);
    reading::read(
        record,
        earliest,
        places,
        &mut corners.left,
        &mut corners.bottom,
        labels,
        &mut corners.right,
        &mut corners.top,
    )
}

// Reads a record where there are `places` for its rooms: how many rooms it has, the labels by position, from the front of their slice,
// and the corners of the rooms; or the refusal, and the labels' slice as it was.
pub fn read_corners(
    record: &[u8],
    labels: &mut [u8],
    places: usize,
    corners: &mut Corners,
) -> Result<usize, Refusal>
    ensures { CornersIn «record».now labels.old places result labels.new corners.new }
{
    let fit = labels.len().min(places);
    let n = read_into(record, 0, &mut labels[..fit], corners)?;
    if fit < n {
        return Err(Refusal::ShortOutput);
    }
    Ok(n)
}
