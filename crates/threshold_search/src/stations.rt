//! The times of the stations, and a list of those that are too long.
//!
//! A station that ceases to be too long gives its place to the last one of the list, and one that becomes so stands at
//! the end.

/// The times of at most 1,024 stations, from 0. Numbers beyond stand for their rest, so no call refuses anything.
#[derive(Drop)]
pub(crate) struct Stations {
    cycle: u64,
    times: [u64; 1024],
    /// The stations whose time exceeds the cycle.
    long: [u16; 1024],
    /// How many they are.
    count: u16,
    /// The place of each station in this list, from 1; 0 where it isn't in it.
    places: [u16; 1024],
}

/// A change of the times of two stations.
#[derive(Clone, Copy)]
pub(crate) struct Change {
    pub(crate) first: u32,
    pub(crate) second: u32,
    /// What the first one loses, and the second one gains.
    pub(crate) gone: u64,
    /// What the second one loses, and the first one gains.
    pub(crate) come: u64,
}

impl Stations {
    /// Stations without a task, at a cycle.
    pub(crate) fn new(cycle: u64) -> Stations {
        Stations {
            cycle,
            times: [0; 1024],
            long: [0; 1024],
            count: 0,
            places: [0; 1024],
        }
    }

    /// Adds a time to a station; the list stays.
    pub(crate) fn add(&mut self, station: u32, time: u64) {
        let at = (station % 1024) as usize;
        self.times[at] = self.times[at].saturating_add(time);
    }

    /// How many stations are too long.
    #[inline]
    pub(crate) fn long_ones(&self) -> u32 {
        u32::from(self.count)
    }

    /// The station at a place of the list, from 0.
    #[inline]
    pub(crate) fn long_at(&self, place: u32) -> u32 {
        u32::from(self.long[(place % 1024) as usize])
    }

    /// The times of two stations after a change.
    #[inline]
    fn changed(&self, change: &Change) -> (u64, u64) {
        let first = self.times[(change.first % 1024) as usize];
        let second = self.times[(change.second % 1024) as usize];
        (
            first
                .saturating_sub(change.gone)
                .saturating_add(change.come),
            second
                .saturating_sub(change.come)
                .saturating_add(change.gone),
        )
    }

    /// What two times exceed the cycle by, together.
    #[inline]
    fn excess(&self, first: u64, second: u64) -> u64 {
        first
            .saturating_sub(self.cycle)
            .saturating_add(second.saturating_sub(self.cycle))
    }

    /// Whether a change makes the excess of its stations greater by no more than a threshold.
    #[inline]
    pub(crate) fn bears(&self, change: &Change, threshold: u64) -> bool {
        let first = self.times[(change.first % 1024) as usize];
        let second = self.times[(change.second % 1024) as usize];
        let (new_first, new_second) = self.changed(change);
        self.excess(new_first, new_second) <= self.excess(first, second).saturating_add(threshold)
    }

    /// Makes a change, and brings the list up to date.
    #[inline]
    pub(crate) fn make(&mut self, change: &Change) {
        let (first, second) = self.changed(change);
        self.times[(change.first % 1024) as usize] = first;
        self.times[(change.second % 1024) as usize] = second;
        self.mend(change.first);
        self.mend(change.second);
    }

    /// Makes the list, of the first so many stations.
    pub(crate) fn list_long(&mut self, stations: u32) {
        for station in 0..stations {
            self.mend(station);
        }
    }

    /// Brings the list up to date where the time of a station changed.
    pub(crate) fn mend(&mut self, station: u32) {
        let at = (station % 1024) as usize;
        let is_long = self.times[at] > self.cycle;
        let place = self.places[at];
        if is_long && place == 0 {
            self.long[(self.count % 1024) as usize] = (station % 1024) as u16;
            self.count = self.count.saturating_add(1);
            self.places[at] = self.count;
        }
        if !is_long && place > 0 {
            self.count = self.count.saturating_sub(1);
            let last = self.long[(self.count % 1024) as usize];
            self.long[((place - 1) % 1024) as usize] = last;
            self.places[(last % 1024) as usize] = place;
            self.places[at] = 0;
        }
    }
}
