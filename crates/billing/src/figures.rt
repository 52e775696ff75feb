// The plain figures of a month.

// What a month tells of itself.
#[derive(Clone, Copy, Debug, Default, PartialEq, Eq)]
pub struct Figures {
    // its number, 1 to 12, and how many days it has
    pub number: u32,
    pub days: u32,
    // the sum of its half-hour readings, which is its energy in half-kWh, and the highest of them in kW
    pub energy: u32,
    pub peak: u32,
    // given at its closing: the supplementary billing demand in kW, and the cents of an entered bill
    pub supplementary: u32,
    pub entered: u32,
    // the sum and the number of the readings in the season's windows over days without a notice
    pub curtailable: u32,
    pub halves: u32,
}
