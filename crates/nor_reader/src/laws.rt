//! What two readings say of the chip.

ghost use Rattle.nor_reader.specs.Laws.{TwiceKnows};
ghost use Rattle.nor_reader.specs.Telling.{ApartKnows, EnteredHolds, ModeIsShown, SaidGives};
ghost use Rattle.nor_reader.specs.Telling.{SureKnows, SwitchMakes};

use nor_loop::{four_reads, reads};

/// Bytes from an address on that came twice alike are what every ready chip of the meaning and the
/// start holds there that would have given these answers, and each chip that holds them there would
/// have given them.
pub fn twice_knows()
    ensures { TwiceKnows }
{
    reads();
    four_reads();
}

/// A content that came twice alike, the second time in pieces that begin two bytes further on, and
/// that shows the mode, is what every chip holds that would have given these answers; and it was in
/// the mode that was said. Where the mode is sure, the first reading is enough, also of a part.
pub fn mode_is_shown()
    ensures shown { ModeIsShown }
    ensures knows { ApartKnows }
    ensures sure { SureKnows }
    ensures gives { SaidGives }
    ensures entered { EnteredHolds }
    ensures made { SwitchMakes }
{}
