// The C call of 02's S-14: the number nearest to a place.
ghost use Rattle.std.specs.Prelude.{◌≡◌};
ghost use Rattle.answers.specs.Statuses.{answer_told};
ghost use Rattle.nearest_number.specs.Nearest.{nearest_number};
ghost use Rattle.rilvostam.specs.Exported.{place_of};

use text::Place;

// The active numeric edge nearest to a place.
pub fn rilvostam_nearest_number(line: &[u8], listing: &[u8], place: u64, at: &mut u64) -> u32
    ensures status { result ≡ (answer_told (nearest_number line.now listing.now
        (place_of place))).status }
    ensures place { at.new ≡ (answer_told
        (nearest_number line.now listing.now (place_of place))).at }
{
    let p = Place(place as usize);
    let number = answers::reading::answer_told(nearest_number::nearest_number(line, listing, p));
    *at = number.at;
    number.status
}
