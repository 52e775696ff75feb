// Bills of GS-3EV: the line between the billings, the floor, the blocks, the minimum demand and the kept months.
use std::process::Abort;
use tariff::{Entered, Figures, Gs3ev, Month, Rate, Rider, Schedule, base_bill};

fn month(number: u32, days: u32, peak: u32, energy: u32, entered: u32) -> Option<Month> {
    Month::new(Figures {
        number,
        days,
        energy,
        peak,
        supplementary: 0,
        entered,
        curtailable: 0,
        halves: 0,
    })
    .ok()
}

// Charges in grains and bill in cents of a month.
fn quoted(m: Option<Month>, minimum: u32, supply: bool) -> Option<(u64, u64)> {
    let rate = Gs3ev::new(supply, minimum).ok()?;
    let m = m?;
    let (charges, _) = rate.quote(&m);
    Some((charges, base_bill(&rate, &m)))
}

// The floor of a month, in grains.
fn floor(m: Option<Month>) -> Option<u64> {
    let rate = Gs3ev::new(true, 0).ok()?;
    let (_, floor) = rate.quote(&m?);
    Some(floor)
}

// Number, days, peak, energy, minimum demand, supply, charges in grains, bill in cents.
type Row = (u32, u32, u32, u32, u32, bool, u64, u64);

fn bills_are(rt: &impl Abort, rows: &[Row]) {
    for &(number, days, peak, energy, minimum, supply, charges, bill) in rows {
        let answer = quoted(month(number, days, peak, energy, 0), minimum, supply);
        assert_eq!(rt; answer, Some((charges, bill)));
    }
}

#[test]
fn the_line_between_the_billings(rt: HostRuntime) {
    let rows = [
        (6, 30, 600, 240_000, 0, true, 196_242_000_000, 654_140),
        (6, 30, 600, 240_001, 0, true, 241_227_884_190, 804_093),
        (6, 30, 600, 240_000, 0, false, 100_338_000_000, 334_460),
        (6, 30, 600, 240_001, 0, false, 70_058_400_690, 233_528),
        (7, 31, 600, 240_000, 0, true, 196_384_760_000, 654_616),
        (7, 31, 600, 240_001, 0, true, 246_995_284_190, 823_318),
        (2, 28, 600, 240_000, 0, true, 179_752_880_000, 599_176),
        (2, 29, 600, 240_001, 0, true, 217_190_484_190, 723_968),
        (5, 31, 600, 240_001, 0, true, 227_465_284_190, 758_218),
        (6, 30, 49, 49, 0, true, 4_321_991_670, 14_407),
        (6, 30, 50, 50, 0, true, 4_322_791_500, 16_550),
        (6, 30, 50, 20_001, 0, true, 73_235_984_190, 244_120),
        (6, 30, 0, 0, 0, true, 4_282_800_000, 14_276),
    ];
    bills_are(&rt, &rows);
}

#[test]
fn the_blocks_and_the_minimum_demand(rt: HostRuntime) {
    let rows = [
        (10, 31, 100, 62_000, 0, true, 93_048_980_000, 310_163),
        (10, 31, 100, 62_001, 0, true, 93_049_103_285, 310_164),
        (10, 31, 100, 93_000, 0, true, 96_870_815_000, 322_903),
        (10, 31, 100, 93_001, 0, true, 96_870_845_510, 322_903),
        (9, 30, 1_000, 1_440_000, 0, true, 509_489_700_000, 1_698_299),
        (6, 30, 0, 0, 700, true, 37_756_800_000, 125_856),
        (6, 30, 600, 240_000, 600, true, 196_242_000_000, 654_140),
        (6, 30, 600, 240_000, 601, true, 196_289_820_000, 654_299),
        (6, 30, 600, 240_001, 700, true, 256_944_884_190, 856_483),
    ];
    bills_are(&rt, &rows);
}

// Number, days, peak and energy, and the floor in grains.
#[test]
fn the_floor_from_50_kw_on(rt: HostRuntime) {
    let rows = [
        (6, 30, 600, 240_000, 59_580_000_000),
        (6, 30, 600, 240_001, 4_282_800_000),
        (7, 31, 600, 240_000, 61_566_000_000),
        (7, 31, 600, 240_001, 4_425_560_000),
        (2, 28, 600, 240_000, 55_608_000_000),
        (2, 29, 600, 240_001, 4_140_040_000),
        (5, 31, 600, 240_001, 4_425_560_000),
        (6, 30, 49, 49, 4_282_800_000),
        (6, 30, 50, 50, 4_965_000_000),
        (6, 30, 50, 20_001, 4_282_800_000),
        (6, 30, 0, 0, 4_282_800_000),
    ];
    for (number, days, peak, energy, grains) in rows {
        assert_eq!(rt; floor(month(number, days, peak, energy, 0)), Some(grains));
    }
}

// Every figure at its limit.
#[test]
fn the_largest_month(rt: HostRuntime) {
    let m = month(1, 31, 100_000, 148_800_000, 0);
    assert_eq!(rt;
        quoted(m, 100_000, true),
        Some((48_954_138_560_000, 163_180_462))
    );
}

// The bills of a June after a month of 5,000 kW and ten of 600, after one more of 600, and after one more of 5,000.
fn bills_after_a_peak() -> Option<(u64, u64, u64)> {
    let high = month(5, 31, 5_000, 5_000, 0)?;
    let low = month(5, 31, 600, 600, 0)?;
    let june = month(6, 30, 600, 240_001, 0)?;
    let mut rate = Gs3ev::new(true, 0).ok()?;
    rate.close(&high);
    // a `for`, since each closing changes the rate
    for _ in 0..10 {
        rate.close(&low);
    }
    let eleventh = base_bill(&rate, &june);
    rate.close(&low);
    let twelfth = base_bill(&rate, &june);
    rate.close(&high);
    Some((eleventh, twelfth, base_bill(&rate, &june)))
}

// A peak counts in the eleventh month after it, and no more in the twelfth.
#[test]
fn eleven_months_are_kept(rt: HostRuntime) {
    assert_eq!(rt; bills_after_a_peak(), Some((2_407_893, 804_093, 2_407_893)));
}

// An entered bill of 10,000 dollars plain, with a rider of 0.25 dollars, and with one of a dollar on top.
fn bills_with_riders() -> Option<(u64, u64, u64)> {
    let m = month(6, 30, 1_000, 10_000, 1_000_000)?;
    let plain = Entered::new(Schedule::Gs3).ok()?;
    let one = base_bill(&plain, &m);
    let rider = Rider::new(250_000, plain).ok()?;
    let two = base_bill(&rider, &m);
    let rider = Rider::new(1_000_000, rider).ok()?;
    Some((one, two, base_bill(&rider, &m)))
}

// 10,000 half-kWh are 5,000 kWh, at 0.25 dollars each 1,250 dollars.
#[test]
fn entered_bills_and_riders(rt: HostRuntime) {
    assert_eq!(rt;
        bills_with_riders(),
        Some((1_000_000, 1_125_000, 1_625_000))
    );
    assert!(rt; Entered::new(Schedule::Gs3Ev).is_err());
    assert!(rt; Gs3ev::new(true, 100_001).is_err());
}
