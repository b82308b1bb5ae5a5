//! The numbers of a picture that stand for the whole line, and those that its layout follows from.
ghost use Rattle.std.specs.Prelude.{◌≡◌, ◌≤◌, ◌<◌, ◌^◌, ◌+◌, ◌-◌, ◌*◌, ◌/◌, ℕ, All, IfOk, OnOk, length, decimal};
ghost use Rattle.combined_graph.specs.Mixes.{model_at};
ghost use Rattle.timeline_drawing.specs.Visits.{AreWorks, Course, IsVisit, bar_end, course, name_of, work_end};
ghost use Rattle.timeline_drawing.specs.Figures.{AreFigures, AreSums, bar_width, bar_x, figures_of, height_of, late_of};
ghost use Rattle.timeline_drawing.specs.Figures.{longest_name, panel_of, panel_x, position, red_width, red_x, scale_of};
ghost use Rattle.timeline_drawing.specs.Figures.{total_of, width_of};

use crate::visits::{Visit, first_starts, latest_of, next_row, row_utility};
use combined_graph::Mix;
use itoa::Buffer;
use line_rules::Balance;
use std::alloc::{AllocError, Global};
use utility_work::{MAX_MODELS, utility};

/// How long a panel is at most, in the units of the picture.
const PANEL: u128 = 120;

/// What a picture needs of the whole line. Times are in the mix's time unit.
#[derive(Clone, Copy, Debug)]
pub struct Figures {
    pub stations: u32,
    /// The number of units.
    pub units: u64,
    /// The launch interval.
    pub interval: u64,
    /// The length of each station.
    pub reach: u64,
    /// The time that a panel is long.
    pub scale: u64,
    /// The utility work of all units.
    pub total: u64,
    /// How many units have utility work.
    pub late: u64,
    /// Where the first station begins.
    pub left: u64,
    /// Where the sums of the units end.
    pub right: u64,
}

impl Figures {
    /// The height of the panels.
    pub(crate) fn panel(&self) -> u64
        requires { AreFigures self.now }
        ensures { result ≡ panel_of self.now }
    {
        18 * self.units
    }

    /// The width of the picture.
    pub(crate) fn width(&self) -> u64
        requires { AreFigures self.now }
        ensures { result ≡ width_of self.now }
    {
        (self.right + 16).max(720)
    }

    /// The height of the picture.
    pub(crate) fn height(&self) -> u64
        requires { AreFigures self.now }
        ensures { result ≡ height_of self.now }
    {
        self.panel() + 137
    }

    /// Where the panel of a station, from 0, begins.
    pub(crate) fn panel_x(&self, station: u32) -> u64
        requires { AreFigures self.now }
        ensures x { result ≡ panel_x self.now station }
        ensures limit { result ≤ 1000000000000 }
    {
        self.left + 136 * u64::from(station)
    }

    /// Where the bar of a visit begins in its panel.
    pub(crate) fn bar_x(&self, visit: &Visit) -> u64
        requires { work_end visit.now ≤ self.now.scale }
        ensures x { result ≡ bar_x self.now visit.now }
        ensures limit { result ≤ 120 }
    {
        position(self.scale, visit.start)
    }

    /// How wide the bar of a visit is.
    pub(crate) fn bar_width(&self, visit: &Visit) -> u64
        requires fits { work_end visit.now ≤ self.now.scale }
        requires own { visit.now.utility ≤ visit.now.work }
        ensures { result ≡ bar_width self.now visit.now }
    {
        let scale = self.scale;
        let end = visit.start + visit.work - visit.utility;
        position(scale, end) - position(scale, visit.start)
    }

    /// Where the red part of a visit begins in its panel.
    pub(crate) fn red_x(&self, visit: &Visit) -> u64
        requires fits { work_end visit.now ≤ self.now.scale }
        requires own { visit.now.utility ≤ visit.now.work }
        ensures x { result ≡ red_x self.now visit.now }
        ensures limit { result ≤ 120 }
    {
        let scale = self.scale;
        position(scale, visit.start + visit.work - visit.utility)
    }

    /// How wide the red part of a visit is.
    pub(crate) fn red_width(&self, visit: &Visit) -> u64
        requires fits { work_end visit.now ≤ self.now.scale }
        requires own { visit.now.utility ≤ visit.now.work }
        ensures { result ≡ red_width self.now visit.now }
    {
        let scale = self.scale;
        let end = visit.start + visit.work;
        position(scale, end) - position(scale, end - visit.utility)
    }
}

/// The position of a time in a panel.
pub(crate) fn position(scale: u64, time: u64) -> u64
    requires { time ≤ scale }
    ensures place { result ≡ position scale time }
    ensures limit { result ≤ 120 }
{
    if scale == 0 {
        return 0;
    }
    (PANEL * u128::from(time) / u128::from(scale)) as u64
}

/// The scale of a picture, and how many units have utility work.
#[derive(Clone, Copy, Debug)]
struct Tally {
    scale: u64,
    late: u64,
}

/// What the units come to, with these works of the models at the stations.
fn tally_of(
    alloc: Global,
    mix: &Mix,
    balance: &Balance,
    sequence: &[u32],
    interval: u64,
    reach: u64,
    works: &[[u64; MAX_MODELS]],
) -> Result<Tally, AllocError>
    requires works { AreWorks mix.now balance.now.place works.now balance.now.stations }
    requires stations { balance.now.stations ≤ 64 }
    requires few { length sequence.now ≤ 1000 }
    requires models { All (λ m. m < length mix.now.models) sequence.now }
    requires reach { reach ≤ 1000000000 }
    ensures scale { IfOk result (λ t. t.scale ≡ scale_of (course mix.now balance.now sequence.now interval reach)) }
    ensures late { IfOk result (λ t. t.late ≡ late_of (course mix.now balance.now sequence.now interval reach)) }
{
    let mut starts = first_starts(alloc, balance.stations)?;
    let mut latest = 0;
    let mut late = 0;
    for unit in 0..sequence.len() as u32 {
        let row = next_row(
            alloc,
            mix,
            balance,
            sequence,
            interval,
            reach,
            works,
            &mut starts,
            unit,
        )?;
        latest = latest_of(&row).max(latest);
        late += u64::from(row_utility(&row) > 0);
    }
    Ok(Tally {
        scale: interval.max(reach).max(latest),
        late,
    })
}

/// The greatest number of bytes of a unit's name, 2 at least.
fn longest_name(mix: &Mix, sequence: &[u32]) -> u64
    requires { All (λ m. m < length mix.now.models) sequence.now }
    ensures name { (d : Course) → d.mix ≡ mix.now → d.units ≡ sequence.now → result ≡ longest_name d }
    ensures few { result ≤ 32 }
{
    let _tasks = mix.tasks();
    let mut longest = 0;
    for model in sequence {
        longest = (mix.name(*model).len() as u64).max(longest);
    }
    longest.max(2)
}

/// How many digits a number has.
fn digits(n: u64) -> u64
    ensures digits { result ≡ length (decimal n) }
    ensures few { result ≤ 20 }
{
    let mut buffer = Buffer::new();
    buffer.format(n).len() as u64
}

/// The utility work at each station.
pub(crate) fn station_sums(
    alloc: Global,
    mix: &Mix,
    balance: &Balance,
    sequence: &[u32],
    interval: u64,
    reach: u64,
) -> Result<(Vec<u64>, u64), AllocError>
    requires places { length balance.now.place ≡ mix.now.tasks }
    requires stations { balance.now.stations ≤ 64 }
    requires few { length sequence.now ≤ 1000 }
    requires models { All (λ m. m < length mix.now.models) sequence.now }
    requires reach { reach ≤ 1000000000 }
    ensures each { IfOk result
        (λ p. AreSums (course mix.now balance.now sequence.now interval reach) p.0.items) }
    ensures total { IfOk result
        (λ p. p.1 ≡ total_of (course mix.now balance.now sequence.now interval reach)) }
{
    let stations = balance.stations as usize;
    let lengths = vec![in alloc; reach; stations]?;
    let mut per = vec![in alloc; 0; stations]?;
    let total = utility(mix, balance, sequence, interval, &lengths, &mut per);
    Ok((per, total as u64))
}

/// What a picture of units needs of the whole line, with these works of the models at the stations and this sum of all
/// utility work.
pub(crate) fn figures_of(
    alloc: Global,
    mix: &Mix,
    balance: &Balance,
    sequence: &[u32],
    interval: u64,
    reach: u64,
    works: &[[u64; MAX_MODELS]],
    total: u64,
) -> Result<Figures, AllocError>
    requires works { AreWorks mix.now balance.now.place works.now balance.now.stations }
    requires stations { balance.now.stations ≤ 64 }
    requires few { length sequence.now ≤ 1000 }
    requires models { All (λ m. m < length mix.now.models) sequence.now }
    requires reach { reach ≤ 1000000000 }
    requires total { total ≡ total_of (course mix.now balance.now sequence.now interval reach) }
    ensures value { IfOk result (λ f. f ≡ figures_of (course mix.now balance.now sequence.now interval reach)) }
    ensures figures { IfOk result AreFigures }
{
    let tally = tally_of(alloc, mix, balance, sequence, interval, reach, works)?;
    let left = 8 * longest_name(mix, sequence) + 72;
    let right = left + 136 * u64::from(balance.stations) + 8 * digits(total).max(7);
    Ok(Figures {
        stations: balance.stations,
        units: sequence.len() as u64,
        interval,
        reach,
        scale: tally.scale,
        total,
        late: tally.late,
        left,
        right,
    })
}
