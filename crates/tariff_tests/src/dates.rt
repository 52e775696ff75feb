// Day numbers, months and seasons at their edges.
use std::test::Fail;
use tariff::{CalendarMonth, Date, Season, SeasonKind, date_of};

fn summer(year: u32) -> Option<Season> {
    Some(Season {
        kind: SeasonKind::Summer,
        year,
    })
}

fn winter(year: u32) -> Option<Season> {
    Some(Season {
        kind: SeasonKind::Winter,
        year,
    })
}

#[test]
fn dates_and_seasons_of_day_numbers(rt: HostRuntime) -> Result<(), Fail> {
    let cases = [
        (0, 2000, 1, 1, winter(1999)),
        (31, 2000, 2, 1, winter(1999)),
        (59, 2000, 2, 29, winter(1999)),
        (60, 2000, 3, 1, winter(1999)),
        (135, 2000, 5, 15, None),
        (136, 2000, 5, 16, summer(2000)),
        (273, 2000, 9, 30, summer(2000)),
        (274, 2000, 10, 1, None),
        (334, 2000, 11, 30, None),
        (335, 2000, 12, 1, winter(2000)),
        (365, 2000, 12, 31, winter(2000)),
        (366, 2001, 1, 1, winter(2000)),
        (456, 2001, 4, 1, None),
        (8_918, 2024, 6, 1, summer(2024)),
        (36_523, 2099, 12, 30, winter(2099)),
        (36_524, 2099, 12, 31, winter(2099)),
        (36_525, 2100, 1, 1, winter(2099)),
    ];
    for (number, year, month, day, season) in cases {
        let d = date_of(number).ok_or("no date")?;
        assert_eq!(rt; d, Date { year, month, day });
        assert_eq!(rt; d.day_number(), Some(number));
        assert_eq!(rt; d.season(), season);
    }
    assert!(rt; date_of(36_526).is_none());
    Ok(())
}

#[test]
fn months_and_their_days(rt: HostRuntime) {
    let cases = [
        (2000, 1, Some(31), Some(0), Some(30)),
        (2000, 2, Some(29), Some(31), Some(59)),
        (2001, 2, Some(28), Some(397), Some(424)),
        (2024, 6, Some(30), Some(8_918), Some(8_947)),
        (2099, 12, Some(31), Some(36_494), Some(36_524)),
        (2100, 1, None, Some(36_525), None),
        (2000, 0, None, None, None),
        (2000, 13, None, None, None),
        (1999, 12, None, None, None),
    ];
    for (year, month, length, first, last) in cases {
        let m = CalendarMonth { year, month };
        assert_eq!(rt; m.length(), length);
        assert_eq!(rt; m.first_day(), first);
        assert_eq!(rt; m.last_day(), last);
    }
}

#[test]
fn seasons_and_their_days(rt: HostRuntime) {
    let cases = [
        (SeasonKind::Winter, 1999, None, Some(90)),
        (SeasonKind::Summer, 2000, Some(136), Some(273)),
        (SeasonKind::Winter, 2000, Some(335), Some(455)),
        (SeasonKind::Winter, 2099, Some(36_494), None),
        (SeasonKind::Summer, 2100, None, None),
    ];
    for (kind, year, first, last) in cases {
        let s = Season { kind, year };
        assert_eq!(rt; s.first_day(), first);
        assert_eq!(rt; s.last_day(), last);
    }
}
