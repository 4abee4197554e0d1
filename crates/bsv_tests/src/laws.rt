use bsv_clock::{carried, fed, lawful, one_clock, one_run, settled, steady, value_methods};
use bsv_schedule::{answered, obeyed, one_order, ordered};

#[test]
fn the_laws_can_be_called() {
    one_order();
    ordered();
    obeyed();
    answered();
    lawful();
    steady();
    settled();
    one_clock();
    fed();
    value_methods();
    one_run();
    carried();
}
