// The rules that a layout keeps.
ghost use Rattle.std.specs.Prelude.{◌≡◌, ◌≤◌, true};
ghost use Rattle.pointers.specs.Places.{data_start, first_track, groups_end};
ghost use Rattle.pointers.specs.Rules.{counts_valid, groups_valid, layout_valid, secondary_valid};

use crate::layout::{
    COPIES_BEFORE_LAST, FIRST_FREE_TRACK, Layout, MOST_GROUPS, MOST_SPARES, NO_TRACK,
    SECTORS_A_TRACK,
};
use crate::tracks::start_of;

impl Layout {
    // The first track of the data zone: behind the secondary area, where that comes first.
    pub(crate) fn first_track(&self) -> u32
        ensures { result ≡ first_track self.now }
    {
        if self.start == FIRST_FREE_TRACK {
            FIRST_FREE_TRACK + self.secondary / SECTORS_A_TRACK
        } else {
            FIRST_FREE_TRACK
        }
    }

    fn are_counts_valid(&self) -> bool
        ensures { result ≡ counts_valid self.now }
    {
        let spares = u64::from(self.groups) * u64::from(self.spares) + u64::from(self.secondary);
        (1..=MOST_GROUPS).contains(&self.groups)
            && 1 <= self.homes
            && spares <= u64::from(MOST_SPARES)
    }

    // Whether the secondary area is whole tracks, right behind the first copies of the layout or right before the last ones.
    fn is_secondary_valid(&self, last: u32) -> bool
        ensures { result ≡ secondary_valid last self.now }
    {
        if self.secondary == 0 {
            return self.start == NO_TRACK;
        }
        let behind = u64::from(self.start)
            + u64::from(self.secondary / SECTORS_A_TRACK)
            + u64::from(COPIES_BEFORE_LAST);
        self.secondary % SECTORS_A_TRACK == 0
            && (self.start == FIRST_FREE_TRACK || behind == u64::from(last))
    }

    // The first sector of the data zone.
    #[tactic(auto, unfolding(crate::specs::Places::data_start))]
    pub(crate) fn data_start(&self) -> u32
        requires { self.now.secondary ≤ 1024 }
        ensures { result ≡ data_start self.now }
    {
        start_of(self.first_track())
    }

    // The first sector behind the groups.
    pub(crate) fn groups_end(&self) -> u64
        requires { (self.now.groups ≤ 65535) × (self.now.secondary ≤ 1024) }
        ensures { result ≡ groups_end self.now }
    {
        let width = u64::from(self.homes) + u64::from(self.spares);
        u64::from(self.data_start()) + u64::from(self.groups) * width
    }

    // Whether the groups end before the last copies of the layout, and before a secondary area behind them.
    fn are_groups_valid(&self, last: u32) -> bool
        requires { (last ≤ 19999) × ((counts_valid self.now ≡ true) × (secondary_valid last self.now ≡ true)) }
        ensures { result ≡ groups_valid last self.now }
    {
        let end = self.groups_end();
        end <= u64::from(start_of(last.saturating_sub(COPIES_BEFORE_LAST)))
            && (self.secondary == 0
                || self.start == FIRST_FREE_TRACK
                || end <= u64::from(start_of(self.start)))
    }

    // Whether the layout keeps every rule on a medium with this last track.
    #[tactic(auto, unfolding(crate::specs::Rules::layout_valid))]
    pub(crate) fn is_valid(&self, last: u32) -> bool
        requires { last ≤ 19999 }
        ensures { result ≡ layout_valid last self.now }
    {
        self.are_counts_valid() && self.is_secondary_valid(last) && self.are_groups_valid(last)
    }
}
