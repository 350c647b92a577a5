//! What holds of the definitions.

ghost use Rattle.valuetext.specs.TwosComplement.{BytesReadBack, ShortestAreFewest};
ghost use Rattle.valuetext.specs.Laws.{DatesReadBack, TimesReadBack, TimestampsReadBack, DecimalsReadBack};

/// A day has one text, which is that of no other day.
#[tactic(auto, using(crate::proofs::DateTexts::dates_read_back))]
pub fn dates_read_back()
    ensures { DatesReadBack }
{}

/// A time of day has one text, which is read as that time, and no text is read as two times.
pub fn times_read_back()
    ensures { TimesReadBack }
{}

/// A timestamp has one text, which is read as that timestamp, and no text is read as two timestamps.
pub fn timestamps_read_back()
    ensures { TimestampsReadBack }
{}

/// A number with a scale has one text, which is read as that number, and no text is read as two numbers.
pub fn decimals_read_back()
    ensures { DecimalsReadBack }
{}

/// Bytes of one length are those of one number in two's complement.
#[tactic(auto, using(crate::proofs::ByteNumbers::bytes_read_back))]
pub fn bytes_read_back()
    ensures { BytesReadBack }
{}

/// Of all bytes that are a number in two's complement, those whose first one does not only repeat the sign are the
/// shortest, and no other bytes are as short.
#[tactic(auto, using(crate::proofs::ByteNumbers::shortest_are_fewest))]
pub fn shortest_are_fewest()
    ensures { ShortestAreFewest }
{}
