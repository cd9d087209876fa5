//! The last value of each option.

ghost use Rattle.std.specs.Prelude.{◌≡◌, option_copied};
ghost use Rattle.url_read.specs.Options.{last_value_of, options_of, value_named};

use crate::options::value_named;

// The value of the last option of this name in a query, None where there is none.
pub(crate) fn last_value_of<'a>(name: &str, query: &'a str) -> Option<&'a str>
    ensures { option_copied result ≡ last_value_of name.now (options_of query.now) }
{
    if query.is_empty() {
        return None;
    }
    let mut last = None;
    for option in query.split('&') {
        last = value_named(name, option).or(last);
    }
    last
}
