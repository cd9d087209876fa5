//! How many coordinates a service has, and how many results.

ghost use Rattle.std.specs.Prelude.{◌≡◌, ◌≤◌, None, OnOk, IfErr};
ghost use Rattle.url_read.specs.Request.{fewest, most, is_count, name_of_service, size_refusal, results_refusal, AreFew};
ghost use Rattle.url_read.specs.Refusals.{IsRefusalIn};

use crate::messages::{too_many, too_many_results};
use crate::refusals::RequestFault;
use crate::requests::Service;
use crate::service_names::ServiceName;
use std::alloc::Global;

// The most results of `nearest`.
const MOST_RESULTS: u32 = 100;

// The fewest coordinates of a service.
fn fewest(service: ServiceName) -> usize
    ensures { result ≡ fewest service }
{
    match service {
        ServiceName::Route | ServiceName::Trip => 2,
        ServiceName::Table | ServiceName::Nearest => 1,
    }
}

// The most coordinates of a service.
fn most(service: ServiceName) -> usize
    ensures { result ≡ most service }
{
    match service {
        ServiceName::Route => 500,
        ServiceName::Table => 100,
        ServiceName::Nearest => 1,
        ServiceName::Trip => 9,
    }
}

// Whether there are enough coordinates, for `nearest` exactly one.
pub(crate) fn is_count(service: ServiceName, count: usize) -> bool
    ensures { result ≡ is_count service count }
{
    match service {
        ServiceName::Nearest => count == 1,
        _ => count >= fewest(service),
    }
}

fn name_of_service(service: &Service) -> ServiceName
    ensures { result ≡ name_of_service service.now }
{
    match service {
        Service::Route(_) => ServiceName::Route,
        Service::Table(_) => ServiceName::Table,
        Service::Nearest(_) => ServiceName::Nearest,
        Service::Trip(_) => ServiceName::Trip,
    }
}

// Whether there are no more coordinates than a service may have, and it is asked for no more results.
pub(crate) fn check_size(alloc: Global, service: &Service, count: usize) -> Result<(), RequestFault>
    ensures fits { OnOk result (size_refusal service.now count ≡ None) }
    ensures most { OnOk result (count ≤ most (name_of_service service.now)) }
    ensures few { OnOk result (AreFew service.now) }
    ensures refusal { IfErr result (IsRefusalIn (size_refusal service.now count)) }
{
    let most = most(name_of_service(service));
    if count > most {
        return Err(RequestFault::Refused(too_many(alloc, count, most)?));
    }
    check_results(alloc, service)
}

fn check_results(alloc: Global, service: &Service) -> Result<(), RequestFault>
    ensures fits { OnOk result (results_refusal service.now ≡ None) }
    ensures few { OnOk result (AreFew service.now) }
    ensures refusal { IfErr result (IsRefusalIn (results_refusal service.now)) }
{
    match service {
        Service::Nearest(own) if own.number > MOST_RESULTS => {
            let refusal = too_many_results(alloc, own.number, MOST_RESULTS)?;
            Err(RequestFault::Refused(refusal))
        }
        _ => Ok(()),
    }
}
