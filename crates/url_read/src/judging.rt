//! The options of a query, judged from the left.

ghost use Rattle.std.specs.Prelude.{◌≡◌, None, OnOk, IfErr};
ghost use Rattle.url_read.specs.Judging.{is_legal, options_refusal};
ghost use Rattle.url_read.specs.Options.{options_of};
ghost use Rattle.url_read.specs.Refusals.{IsRefusalIn};

use crate::messages::bad_option;
use crate::options::{is_of, name_of};
use crate::refusals::RequestFault;
use crate::service_names::ServiceName;
use option_values::cut;
use std::alloc::Global;

// Whether each option of a query is one of the service, of its grammar, or else the first that is not.
pub(crate) fn check_options(
    alloc: Global,
    service: ServiceName,
    query: &str,
) -> Result<(), RequestFault>
    ensures legal { OnOk result (options_refusal service (options_of query.now) ≡ None) }
    ensures refusal { IfErr result (IsRefusalIn (options_refusal service (options_of query.now))) }
{
    if query.is_empty() {
        return Ok(());
    }
    for option in query.split('&') {
        if !is_legal(service, option) {
            return Err(RequestFault::Refused(bad_option(alloc, name_of(option))?));
        }
    }
    Ok(())
}

// Whether an option has a value, which its service knows.
fn is_legal(service: ServiceName, option: &str) -> bool
    ensures { result ≡ is_legal service option.now }
{
    match cut(option, '=') {
        Some((name, value)) => is_of(service, name, value),
        None => false,
    }
}
