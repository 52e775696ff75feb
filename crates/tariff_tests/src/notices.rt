// Notices of every shape, the half hours of each, and which notices a day may have.
use std::process::Abort;
use tariff::{Date, FirmDemands, Notice, NoticeFault, SeasonKind, accept};

// The first half hour of a notice and how many it has; (0, 0) where it has none, as the tables write it.
fn halves(season: SeasonKind, minute: i32, release: Option<i32>) -> Option<(usize, usize)> {
    let h = Notice { minute, release }.period(season)?.half_hours();
    if h.first < h.past {
        Some((h.first, h.past - h.first))
    } else {
        Some((0, 0))
    }
}

// Minute, release, first half hour, and how many.
fn halves_are(rt: &impl Abort, season: SeasonKind, cases: &[(i32, Option<i32>, usize, usize)]) {
    for &(minute, release, first, count) in cases {
        assert_eq!(rt; halves(season, minute, release), Some((first, count)));
    }
}

#[test]
fn summer_notices(rt: HostRuntime) {
    let cases = [
        (810, None, 28, 14),
        (811, None, 29, 13),
        (839, None, 29, 13),
        (840, None, 29, 13),
        (-180, None, 28, 14),
        (1_200, None, 41, 1),
        (1_201, None, 0, 0),
        (1_230, None, 0, 0),
        (1_259, None, 0, 0),
        (-100, Some(-50), 0, 0),
        (0, Some(840), 0, 0),
        (0, Some(869), 0, 0),
        (0, Some(870), 28, 1),
        (900, Some(2_000), 31, 11),
        (900, Some(930), 0, 0),
        (900, Some(960), 31, 1),
    ];
    halves_are(&rt, SeasonKind::Summer, &cases);
    assert_eq!(rt; halves(SeasonKind::Summer, 1_260, None), None);
}

#[test]
fn winter_notices(rt: HostRuntime) {
    let cases = [
        (-120, None, 12, 10),
        (330, None, 12, 10),
        (331, None, 13, 9),
        (360, None, 13, 9),
        (629, None, 0, 0),
        (659, None, 0, 0),
        (660, None, 34, 10),
        (990, None, 34, 10),
        (991, None, 35, 9),
        (1_020, None, 35, 9),
        (1_289, None, 0, 0),
        (1_319, None, 0, 0),
        (700, Some(1_050), 34, 1),
        (700, Some(1_019), 0, 0),
    ];
    halves_are(&rt, SeasonKind::Winter, &cases);
    assert_eq!(rt; halves(SeasonKind::Winter, 1_320, None), None);
}

// The number of the refusal that a day's notices get, if they get one.
fn refusal(year: u32, month: u32, day: u32, firm: &FirmDemands, notices: &[Notice]) -> Option<u32> {
    accept(&Date { year, month, day }, firm, notices)
        .err()
        .map(NoticeFault::number)
}

fn at(minute: i32) -> Notice {
    Notice {
        minute,
        release: None,
    }
}

fn until(minute: i32, release: i32) -> Notice {
    Notice {
        minute,
        release: Some(release),
    }
}

#[test]
fn seasons_and_elections(rt: HostRuntime) {
    let both = FirmDemands {
        summer: Some(400),
        winter: Some(400),
    };
    let summer = FirmDemands {
        summer: Some(400),
        winter: None,
    };
    assert_eq!(rt; refusal(2024, 5, 15, &both, &[at(0)]), Some(11));
    assert_eq!(rt; refusal(2024, 5, 15, &both, &[]), None);
    assert_eq!(rt; refusal(2024, 5, 16, &both, &[at(0)]), None);
    assert_eq!(rt; refusal(2024, 5, 16, &both, &[at(-1)]), Some(12));
    assert_eq!(rt; refusal(2024, 5, 17, &both, &[at(-180)]), None);
    assert_eq!(rt; refusal(2024, 5, 17, &both, &[at(-181)]), Some(12));
    assert_eq!(rt; refusal(2024, 9, 30, &both, &[at(0)]), None);
    assert_eq!(rt; refusal(2024, 10, 1, &both, &[at(0)]), Some(11));
    assert_eq!(rt; refusal(2024, 12, 1, &both, &[at(-1)]), Some(12));
    assert_eq!(rt; refusal(2024, 12, 2, &both, &[at(-120)]), None);
    assert_eq!(rt; refusal(2024, 12, 2, &both, &[at(-121)]), Some(12));
    assert_eq!(rt; refusal(2024, 12, 2, &summer, &[at(0)]), Some(11));
    assert_eq!(rt; refusal(2024, 3, 31, &both, &[at(0)]), None);
    assert_eq!(rt; refusal(2024, 4, 1, &both, &[at(0)]), Some(11));
    assert_eq!(rt; refusal(2024, 7, 1, &summer, &[at(-32_768)]), Some(12));
}

#[test]
fn order_and_releases(rt: HostRuntime) {
    let firm = FirmDemands {
        summer: Some(400),
        winter: Some(400),
    };
    assert_eq!(rt; refusal(2024, 7, 1, &firm, &[at(1_259)]), None);
    assert_eq!(rt; refusal(2024, 7, 1, &firm, &[at(1_260)]), Some(12));
    assert_eq!(rt; refusal(2024, 1, 5, &firm, &[at(1_319)]), None);
    assert_eq!(rt; refusal(2024, 1, 5, &firm, &[at(1_320)]), Some(12));
    assert_eq!(rt; refusal(2024, 7, 1, &firm, &[until(900, 900)]), Some(12));
    assert_eq!(rt;
        refusal(2024, 7, 1, &firm, &[until(900, 901), at(901)]),
        None
    );
    assert_eq!(rt;
        refusal(2024, 7, 1, &firm, &[until(900, 902), at(901)]),
        Some(12)
    );
    assert_eq!(rt;
        refusal(2024, 7, 1, &firm, &[until(-100, -50), at(-50)]),
        None
    );
    assert_eq!(rt;
        refusal(2024, 7, 1, &firm, &[until(-100, -50), at(-51)]),
        Some(12)
    );
    assert_eq!(rt; refusal(2024, 7, 1, &firm, &[at(900), at(901)]), Some(12));
    assert_eq!(rt; refusal(2024, 1, 5, &firm, &[at(650), at(660)]), None);
    assert_eq!(rt; refusal(2024, 1, 5, &firm, &[at(650), at(659)]), Some(12));
    assert_eq!(rt;
        refusal(
            2024,
            7,
            1,
            &firm,
            &[until(0, 1), until(1, 2), until(2, 3), until(3, 4)],
        ),
        None
    );
    assert_eq!(rt;
        refusal(
            2024,
            7,
            1,
            &firm,
            &[
                until(0, 1),
                until(1, 2),
                until(2, 3),
                until(3, 4),
                until(4, 5),
            ],
        ),
        Some(12)
    );
}
