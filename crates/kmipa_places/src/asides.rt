//! What a witness sets aside of a call.

ghost use Rattle.std.specs.Prelude.{◌≡◌};
ghost use Rattle.kmipa_places.specs.Unread.{is_among, is_place};

/// Whether a place, counted from 1, is among those that are set aside; 0 is the whole call.
pub fn is_among(asides: &[i32], place: usize) -> bool
    ensures { result ≡ is_among asides.now place }
{
    for aside in asides {
        if is_place(*aside, place) {
            return true;
        }
    }
    false
}

fn is_place(aside: i32, place: usize) -> bool
    ensures { result ≡ is_place aside place }
{
    aside >= 0 && aside.unsigned_abs() as usize == place
}
