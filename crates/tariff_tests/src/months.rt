// The limits of a month's figures, and the figures of a day.
use std::test::Fail;
use tariff::{DayFigures, Figures, Month, Notice, SeasonKind, day_figures, highest};

// Whether a month is accepted: number, days, energy, peak, supplementary, entered, sum and count in windows.
fn accepted(f: (u32, u32, u32, u32, u32, u32, u32, u32)) -> bool {
    let (number, days, energy, peak, supplementary, entered, curtailable, halves) = f;
    Month::new(Figures {
        number,
        days,
        energy,
        peak,
        supplementary,
        entered,
        curtailable,
        halves,
    })
    .is_ok()
}

#[test]
fn limits_of_a_month(rt: HostRuntime) {
    let good = [
        (2, 28, 0, 0, 0, 0, 0, 0),
        (2, 29, 100, 100, 0, 0, 0, 0),
        (
            1,
            31,
            148_800_000,
            100_000,
            100_000,
            4_000_000_000,
            62_000_000,
            620,
        ),
        (4, 30, 1_440, 1, 0, 0, 600, 600),
    ];
    // a `for` over each table, so that a wrong row is the one that stops
    for f in good {
        assert!(rt; accepted(f));
    }
    let bad = [
        (0, 31, 0, 0, 0, 0, 0, 0),
        (13, 31, 0, 0, 0, 0, 0, 0),
        (2, 30, 0, 0, 0, 0, 0, 0),
        (4, 31, 0, 0, 0, 0, 0, 0),
        (1, 31, 100_001, 100_001, 0, 0, 0, 0),
        (1, 31, 0, 0, 100_001, 0, 0, 0),
        (1, 31, 0, 0, 0, 4_000_000_001, 0, 0),
        (1, 31, 99, 100, 0, 0, 0, 0),
        (1, 31, 1_489, 1, 0, 0, 0, 0),
        (4, 30, 1_440, 1, 0, 0, 601, 600),
        (4, 30, 1_440, 1, 0, 0, 600, 601),
    ];
    for f in bad {
        assert!(rt; !accepted(f));
    }
}

// 48 readings of 100, but one of 700 at noon, one of 600 at 8 p.m. and one of 650 at 6:30 a.m.
#[test]
fn figures_of_a_day(rt: HostRuntime) -> Result<(), Fail> {
    let mut day = [100u32; 48];
    day[24] = 700;
    day[40] = 600;
    day[13] = 650;
    let plain = day_figures(&day, None).ok_or("refused")?;
    let expected = DayFigures {
        energy: 6_450,
        peak: 700,
        curtailable: 0,
        halves: 0,
    };
    assert_eq!(rt; plain, expected);
    let summer = day_figures(&day, Some(SeasonKind::Summer)).ok_or("refused")?;
    assert_eq!(rt; summer.curtailable, 1_900);
    assert_eq!(rt; summer.halves, 14);
    let winter = day_figures(&day, Some(SeasonKind::Winter)).ok_or("refused")?;
    assert_eq!(rt; winter.curtailable, 3_050);
    assert_eq!(rt; winter.halves, 20);
    let late = Notice {
        minute: 1_170,
        release: None,
    };
    assert_eq!(rt; late.demand(SeasonKind::Summer, &day), Some(600));
    let later = Notice {
        minute: 1_201,
        release: None,
    };
    assert_eq!(rt; later.demand(SeasonKind::Summer, &day), None);
    day[0] = 100_001;
    assert!(rt; day_figures(&day, None).is_none());
    assert!(rt; day_figures(&day[1..48], None).is_none());
    Ok(())
}

fn top(readings: &[u32]) -> Option<u32> {
    highest(readings).copied()
}

#[test]
fn the_highest_of_a_run(rt: HostRuntime) {
    assert_eq!(rt; top(&[3, 9, 2, 9]), Some(9));
    assert_eq!(rt; top(&[7]), Some(7));
    assert_eq!(rt; top(&[]), None);
}
