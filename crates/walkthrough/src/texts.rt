//! The policy texts of the cases, in parts that some of them share.

const CLOCK_TO_MAINT: &str = "\
context clock 0 0
context keypad 0 0
context maint 0 0
";

const OPENING: &str = "context opening 0 0\n";

const OPENING_RAISED: &str = "context opening 1 0\n";

const LOG_AND_VECTORS: &str = "\
context log 0 0
vector clock opening update
vector keypad log append
vector maint log read
";

const GRANT: &str = "grant 1 maint opening write\n";

const PROPERTY_1: &str = "property 1 integrity keypad opening\n";

const PROPERTIES_2_TO_4: &str = "\
property 2 confidentiality keypad opening
property 3 domain clock,opening
property 4 consistency maint keypad
";

/// The sample controller with its properties.
pub(crate) const SAMPLE: [&str; 6] = [
    CLOCK_TO_MAINT,
    OPENING,
    LOG_AND_VECTORS,
    GRANT,
    PROPERTY_1,
    PROPERTIES_2_TO_4,
];

pub(crate) const WITHOUT_GRANT: [&str; 4] = [CLOCK_TO_MAINT, OPENING, LOG_AND_VECTORS, PROPERTY_1];

/// The sample controller with the opening at level 1.
pub(crate) const RAISED: [&str; 5] = [
    CLOCK_TO_MAINT,
    OPENING_RAISED,
    LOG_AND_VECTORS,
    GRANT,
    PROPERTY_1,
];

/// Transitions come first, so what one writes on two gets no further by the transition of two.
pub(crate) const DETOUR: &str = "\
context one 0 0
context two 0 0
context three 0 0
context four 0 0
vector one two write
vector one three become
vector three two become
vector two four become
property 1 integrity one four
";
