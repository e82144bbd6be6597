//! Lists, reported by their values.

use dwg_base::{Items, NoMemory};
use dwg_testkit::Report;

/// What is reported of a value of a list.
pub trait Listed {
    /// Reports the value.
    fn report(&self, report: &mut Report);
}

/// Reports the values of a list.
fn report_items<T: Listed + Drop>(items: Items<T>, report: &mut Report) {
    for item in items.as_slice() {
        item.report(report);
    }
}

/// Reports a list, or why there is none.
pub fn report_list<T: Listed + Drop>(
    found: Result<Option<Items<T>>, NoMemory>,
    report: &mut Report,
) {
    match found {
        Ok(Some(items)) => report_items(items, report),
        Ok(None) => report.word("none"),
        Err(NoMemory) => report.word("no memory"),
    }
}
