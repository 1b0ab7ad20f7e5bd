// What holds of every packing.
ghost use Rattle.sheets.specs.Laws.{CodesStandForWeights, SpareBitsUnread};

// A byte or a nibble is its weight in two's complement, and the bits of planes write an odd one.
pub fn codes_stand_for_weights()
    ensures { CodesStandForWeights }
{}

// A sheet's weights rest on the bits of its places alone.
pub fn spare_bits_unread()
    ensures { SpareBitsUnread }
{}
