// What was counted.
use std::fmt;

/// How many lines were answered, refused and not read, and how many files could not be opened or read to the end.
#[derive(Clone, Copy, Debug, Default)]
pub(crate) struct Tally {
    pub(crate) answered: u64,
    pub(crate) refused: u64,
    pub(crate) unread: u64,
    pub(crate) unopened: u64,
    pub(crate) broken: u64,
}

// One more, as long as there is one.
pub(crate) fn count(n: &mut u64) {
    *n = n.saturating_add(1);
}

// What stands behind a noun.
fn plural(n: u64) -> &'static str {
    if n == 1 { "" } else { "s" }
}

impl fmt::Display for Tally {
    fn fmt<W: fmt::Write>(&self, f: &mut fmt::Formatter<W>) -> fmt::Result {
        let Tally {
            answered,
            refused,
            unread,
            unopened,
            broken,
        } = *self;
        let all = answered.saturating_add(refused).saturating_add(unread);
        let s = plural(all);
        write!(
            f,
            "{all} question{s}: {answered} answered, {refused} refused, {unread} not read"
        )?;
        if unopened > 0 {
            let s = plural(unopened);
            write!(f, ", {unopened} file{s} not opened")?;
        }
        if broken > 0 {
            let s = plural(broken);
            write!(f, ", {broken} file{s} not read to the end")?;
        }
        Ok(())
    }
}
