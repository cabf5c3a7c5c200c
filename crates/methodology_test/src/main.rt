// Replays document 001's examples. The printout is worked out by hand: its lines are the rows of
// tests/methodology/table.txt, against which the reference is tested, in that file's order.
#![tactic(auto)]

mod rows;

use methodology::sample::{Priced, Sample};
use methodology::weighted::Weighted;
use rows::{Amount, Basis, Clamp, Spread, WeightedMinute};
use std::fmt::Display;
use std::io;

fn print_rows<R: Display>(rt: &impl Print, rows: &[R]) -> io::Result<()> {
    for row in rows {
        println!(rt; "{row}")?;
    }
    Ok(())
}

fn spreads(rt: &impl Print) -> io::Result<()> {
    let rows = [
        Spread::new(Sample::new(8_391_030, 8_391_040, 8_391_500, 8_391_603), 7),
        Spread::new(Sample::new(8_396_580, 8_396_590, 8_396_580, 8_398_313), 7),
        Spread::new(Sample::new(8_356_610, 8_398_610, 8_400_000, 8_399_016), 5),
    ];
    print_rows(rt, &rows)
}

fn bases(rt: &impl Print) -> io::Result<()> {
    let rows = [
        Basis::new(8_391_035, 8_391_603),
        Basis::new(8_396_580, 8_398_313),
        Basis::new(8_398_605, 8_399_016),
        Basis::new(8_399_460, 8_399_921),
        Basis::new(8_400_790, 8_404_832),
    ];
    print_rows(rt, &rows)
}

// The five minutes of the sample weights; the examples differ in the third one.
fn samples(third: Priced) -> [Priced; 5] {
    [
        Priced::new(Sample::new(8_391_030, 8_391_040, 8_391_500, 8_391_603)),
        Priced::new(Sample::new(8_396_580, 8_396_590, 8_396_580, 8_398_313)),
        third,
        Priced::new(Sample::new(8_399_450, 8_399_460, 8_399_460, 8_399_921)),
        Priced::new(Sample::new(8_400_790, 8_400_800, 8_400_790, 8_404_832)),
    ]
}

// Each minute with its weight and basis, then the rate.
fn weights(rt: &impl Print, third: Priced) -> io::Result<()> {
    let mut day = Weighted::none();
    for minute in samples(third) {
        day = day.with_minute(minute);
        println!(rt; "{}", WeightedMinute::new(minute.sample, day.count))?;
    }
    println!(rt; "{day}")
}

fn clamps(rt: &impl Print) -> io::Result<()> {
    print_rows(
        rt,
        &[Clamp(-1_976_140), Clamp(-1_950_040), Clamp(-2_148_730)],
    )
}

fn amounts(rt: &impl Print) -> io::Result<()> {
    let rows = [
        Amount::new(250_000, 11_674_700, 1),
        Amount::new(250_000, 11_674_700, -1),
        Amount::new(250_000, 11_674_700, 12),
        Amount::new(250_000, 11_674_700, -12),
        Amount::new(-180_000, 11_832_400, 1),
        Amount::new(-180_000, 11_832_400, -1),
        Amount::new(-180_000, 11_832_400, 25),
        Amount::new(-180_000, 11_832_400, -25),
    ];
    print_rows(rt, &rows)
}

fn main(rt: HostRuntime) -> io::Result<()> {
    spreads(&rt)?;
    bases(&rt)?;
    let narrow = Priced::new(Sample::new(8_398_600, 8_398_610, 8_400_000, 8_399_016));
    let wide = Priced::new(Sample::new(8_356_610, 8_398_610, 8_400_000, 8_399_016));
    weights(&rt, narrow)?;
    weights(&rt, wide)?;
    clamps(&rt)?;
    amounts(&rt)
}
