// Credits and failure charges of the metered and the standby basis, and what each basis is open to.
use std::test::Fail;
use tariff::{
    Basis, Figures, Metered, Month, NoBasis, Schedule, SeasonKind, Standby, StandbyTerms,
};

fn month(supplementary: u32, curtailable: u32, halves: u32) -> Option<Month> {
    Month::new(Figures {
        number: 7,
        days: 31,
        energy: 1_500_000,
        peak: 1_500,
        supplementary,
        entered: 0,
        curtailable,
        halves,
    })
    .ok()
}

// 1,000 kW in summer, 800 in winter, 500 standby, 1,500 combined, 1,750 hours.
fn plant() -> Option<Standby> {
    Standby::new(StandbyTerms {
        summer: 1_000,
        winter: 800,
        standby: 500,
        combined: 1_500,
        hours: 1_750,
    })
    .ok()
}

// The metered credit of a month with this sum and number of readings in the windows.
fn metered(season: SeasonKind, sum: u32, count: u32, firm: u32) -> Option<u64> {
    let m = month(0, sum, count)?;
    Metered.credit(season, &m, firm).ok()
}

// The standby credit of a month with this supplementary billing demand.
fn standby(season: SeasonKind, supplementary: u32, firm: u32) -> Option<u64> {
    let m = month(supplementary, 0, 0)?;
    plant()?.credit(season, &m, firm).ok()
}

fn standby_failure(season: SeasonKind, firm: u32, demand: u32) -> Option<u64> {
    plant()?.failure_charge(season, firm, demand).ok()
}

fn plant_serves(schedule: Schedule) -> Option<bool> {
    Some(plant()?.serves(schedule))
}

#[test]
fn metered_credits(rt: HostRuntime) {
    let cases = [
        (SeasonKind::Summer, 420_000, 420, 400, 217_140),
        (SeasonKind::Summer, 420_001, 420, 400, 217_141),
        (SeasonKind::Summer, 168_001, 420, 400, 1),
        (SeasonKind::Summer, 168_000, 420, 400, 0),
        (SeasonKind::Summer, 167_999, 420, 400, 0),
        (SeasonKind::Summer, 0, 0, 400, 0),
        (SeasonKind::Summer, 3, 434, 0, 3),
        (SeasonKind::Winter, 620_000, 620, 0, 181_000),
        (SeasonKind::Winter, 620_000, 620, 999, 181),
        (SeasonKind::Winter, 620_000, 620, 1_000, 0),
        (SeasonKind::Winter, 1, 600, 0, 0),
    ];
    for (season, sum, count, firm, cents) in cases {
        assert_eq!(rt; metered(season, sum, count, firm), Some(cents));
    }
    assert_eq!(rt; metered(SeasonKind::Summer, 420_000, 420, 100_001), None);
}

#[test]
fn metered_failures(rt: HostRuntime) {
    let cases = [
        (SeasonKind::Summer, 400, 1_000, 868_440),
        (SeasonKind::Summer, 400, 401, 1_447),
        (SeasonKind::Summer, 400, 400, 0),
        (SeasonKind::Summer, 400, 399, 0),
        (SeasonKind::Winter, 0, 100_000, 72_390_000),
        (SeasonKind::Winter, 700, 1_000, 217_170),
    ];
    for (season, firm, demand, cents) in cases {
        assert_eq!(rt;
            Metered.failure_charge(season, firm, demand).ok(),
            Some(cents)
        );
    }
    assert!(rt;
        Metered
            .failure_charge(SeasonKind::Winter, 0, 100_001)
            .is_err()
    );
}

// The firm demand at the supplementary demand and above it, at the combined demand and above it.
#[test]
fn standby_credits(rt: HostRuntime) {
    let cases = [
        (SeasonKind::Summer, 1_050, 1_000, 108_570),
        (SeasonKind::Summer, 1_050, 1_001, 108_027),
        (SeasonKind::Summer, 1_050, 1_500, 0),
        (SeasonKind::Summer, 1_050, 1_501, 0),
        (SeasonKind::Summer, 1_001, 1_000, 90_837),
        (SeasonKind::Summer, 1_000, 1_000, 90_475),
        (SeasonKind::Winter, 1_050, 1_000, 54_300),
        (SeasonKind::Winter, 1_050, 1_001, 54_029),
        (SeasonKind::Winter, 0, 0, 45_250),
        (SeasonKind::Winter, 1_050, 700, 108_600),
    ];
    for (season, supplementary, firm, cents) in cases {
        assert_eq!(rt; standby(season, supplementary, firm), Some(cents));
    }
}

#[test]
fn standby_failures(rt: HostRuntime) {
    let cases = [
        (SeasonKind::Summer, 600, 1_000, 578_960),
        (SeasonKind::Summer, 600, 1_200, 723_700),
        (SeasonKind::Summer, 1_100, 1_200, 72_370),
        (SeasonKind::Summer, 600, 600, 0),
        (SeasonKind::Summer, 600, 601, 1_447),
        (SeasonKind::Summer, 1_000, 1_001, 724),
        (SeasonKind::Summer, 999, 1_001, 2_171),
        (SeasonKind::Winter, 600, 1_000, 289_560),
        (SeasonKind::Winter, 600, 1_001, 289_922),
        (SeasonKind::Winter, 1_000, 1_200, 72_390),
        (SeasonKind::Winter, 1_001, 1_200, 72_028),
    ];
    for (season, firm, demand, cents) in cases {
        assert_eq!(rt; standby_failure(season, firm, demand), Some(cents));
    }
}

#[test]
fn what_each_basis_is_open_to(rt: HostRuntime) -> Result<(), Fail> {
    // a `for`, since `?` ends it
    for code in 1..10u32 {
        let schedule = Schedule::try_from(code).ok().ok_or("no schedule")?;
        // by the codes, which the rules list, and not by the variants, as the code does
        assert_eq!(rt; Metered.serves(schedule), 2 <= code && code <= 8);
        assert_eq!(rt; plant_serves(schedule), Some(code == 9));
        assert!(rt; NoBasis.serves(schedule));
    }
    assert_eq!(rt; Metered.monthly_charge(), 4_720);
    assert_eq!(rt; NoBasis.monthly_charge(), 0);
    assert!(rt; Metered.admits_firm_demand() && !NoBasis.admits_firm_demand());
    let wide = StandbyTerms {
        summer: 1_000,
        winter: 800,
        standby: 500,
        combined: 1_501,
        hours: 1_750,
    };
    assert!(rt; Standby::new(wide).is_err());
    Ok(())
}
