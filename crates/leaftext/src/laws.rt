//! What holds of the definitions.

ghost use Rattle.leaftext.specs.Forms.{FormBytesReadBack, FormsReadBack};
ghost use Rattle.leaftext.specs.Laws.{DatesAgree, TimesAgree, TimestampsAgree, DecimalsAgree, ShortestBytesAgree, FixedBytesAgree};

/// The texts of days and the relation of `valuetext` are the same.
#[tactic(auto, using(crate::proofs::Dates::dates_agree))]
pub fn dates_agree()
    ensures { DatesAgree }
{}

/// The texts of times of day and the relations of `valuetext` are the same.
pub fn times_agree()
    ensures { TimesAgree }
{}

/// The texts of timestamps and the relations of `valuetext` are the same.
pub fn timestamps_agree()
    ensures { TimestampsAgree }
{}

/// The texts of decimal numbers and the relations of `valuetext` are the same.
pub fn decimals_agree()
    ensures { DecimalsAgree }
{}

/// The text of a number is read as that number.
pub fn forms_read_back()
    ensures { FormsReadBack }
{}

/// The texts of bytes of any length, and the relations of `valuetext`, are the same.
pub fn shortest_bytes_agree()
    ensures { ShortestBytesAgree }
{}

/// The texts of bytes of one length, and the relations of `valuetext`, are the same.
pub fn fixed_bytes_agree()
    ensures { FixedBytesAgree }
{}

/// The text of bytes is read as those bytes.
pub fn bytes_read_back()
    ensures { FormBytesReadBack }
{}
