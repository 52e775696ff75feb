// The firm demands that a site has elected.
use calendar::by_season::BySeason;

// A firm demand in kW for each season; none where curtailment is not elected.
pub type FirmDemands = BySeason<Option<u32>>;
