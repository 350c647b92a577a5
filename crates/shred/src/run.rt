//! Entries without value, kept as runs.

ghost use Rattle.std.specs.Prelude.{◌≡◌, ◌++◌, [], None, IfSome};
ghost use Rattle.schema.specs.Stripe.{entry};
ghost use Rattle.shred.specs.inner.Packed.{absent};

/// Entries without value, one after another, with equal levels: these levels, and how many entries they are. With no
/// entries the levels mean nothing.
#[derive(Debug, Clone, Copy)]
pub(crate) struct Run {
    pub(crate) repetition: u32,
    pub(crate) definition: u32,
    pub(crate) count: usize,
}

impl Run {
    /// No entries.
    #[inline(always)]
    pub(crate) fn empty() -> Run
        ensures empty { absent result ≡ [] }
        ensures none { result.count ≡ 0 }
    {
        Run {
            repetition: 0,
            definition: 0,
            count: 0,
        }
    }

    /// One entry.
    #[inline(always)]
    pub(crate) fn of_one(repetition: u32, definition: u32) -> Run
        ensures { absent result ≡ entry repetition definition None }
    {
        Run {
            repetition,
            definition,
            count: 1,
        }
    }

    /// The run with one entry of these levels more. None if its entries have other levels.
    #[inline(always)]
    pub(crate) fn longer(self, repetition: u32, definition: u32) -> Option<Run>
        ensures { IfSome result (λ longer. absent longer ≡ absent self ++ entry repetition definition None) }
    {
        if self.repetition != repetition || self.definition != definition {
            return None;
        }
        // A run that is too long to be counted on is never reached: the next entry would begin another one.
        let count = self.count.checked_add(1)?;
        Some(Run {
            repetition,
            definition,
            count,
        })
    }
}
