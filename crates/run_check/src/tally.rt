// What is seen in runs.

ghost use Rattle.orca_core.specs.Machine.{NoneIsAway};

use orca_core::Orca;

/// What an event of a book was.
#[derive(Clone, Copy, PartialEq, Eq)]
pub(crate) enum Deed {
    /// The take of a letter that a program sent.
    Letter,
    /// The act of a segment.
    Act,
    /// A go after which the frame is as before: counts were minted for its act.
    Mint,
    Leave,
    Reap,
    Other,
}

/// How often each was seen in some runs, and what these made.
#[derive(Clone, Copy, Debug)]
pub(crate) struct Tally {
    pub(crate) letters: u64,
    pub(crate) acts: u64,
    pub(crate) mints: u64,
    pub(crate) leaves: u64,
    pub(crate) reaps: u64,
    pub(crate) actors: u64,
    pub(crate) objects: u64,
    pub(crate) prints: u64,
    /// How many runs ended where nothing was enabled, and how many where something was.
    pub(crate) quiet: u64,
    pub(crate) open: u64,
}

fn one_more(count: &mut u64) {
    *count = count.saturating_add(1);
}

impl Tally {
    /// Nothing was seen.
    pub(crate) fn new() -> Tally {
        Tally {
            letters: 0,
            acts: 0,
            mints: 0,
            leaves: 0,
            reaps: 0,
            actors: 0,
            objects: 0,
            prints: 0,
            quiet: 0,
            open: 0,
        }
    }

    pub(crate) fn add(&mut self, deed: Deed) {
        match deed {
            Deed::Letter => one_more(&mut self.letters),
            Deed::Act => one_more(&mut self.acts),
            Deed::Mint => one_more(&mut self.mints),
            Deed::Leave => one_more(&mut self.leaves),
            Deed::Reap => one_more(&mut self.reaps),
            Deed::Other => {}
        }
    }

    /// What a run made, at its end.
    pub(crate) fn add_end(&mut self, orca: &Orca<'_>)
        requires { NoneIsAway orca.now }
    {
        self.actors = self.actors.saturating_add(orca.made());
        self.objects = self.objects.saturating_add(orca.objects_made());
        self.prints = self.prints.saturating_add(orca.prints().len() as u64);
        one_more(if orca.quiet() {
            &mut self.quiet
        } else {
            &mut self.open
        });
    }

    /// Whether much was seen of everything.
    pub(crate) fn is_rich(&self) -> bool {
        let seen = [
            (self.letters, 1500),
            (self.acts, 5000),
            (self.mints, 100),
            (self.leaves, 500),
            (self.reaps, 20),
            (self.actors, 1000),
            (self.objects, 1500),
            (self.prints, 1000),
            (self.quiet, 100),
            (self.open, 25),
        ];
        seen.iter().all(|(count, least)| count >= least)
    }
}
