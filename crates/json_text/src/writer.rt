//! A JSON text under construction.
ghost use Rattle.std.specs.Prelude.{◌≡◌, pos, IfOk, OnOk, OnErr, IsUtf8, flat_map, string_bytes};
ghost use Rattle.json.specs.Print.{quoted};
ghost use Rattle.json_text.specs.Values.{JsonValue, boolean, boolean_text, null, text, whole, tenths, location, compact_text, IsValueText};
ghost use Rattle.json_text.specs.Drafts.{empty_draft, TakesValue, TakesKey, TakesEnd, IsFinished, comma_text, opening_bracket, closing_bracket, begun, ended, with_key, with_text, with_value};

use crate::append::append_all;
use crate::draft::{Container, Last};
use crate::numbers::{digit, sign_text};
use road_base::Point;
use serde_json::Value;
use std::alloc::{AllocError, Global};
use std::marker::Model;

/// A JSON text under construction, which contracts see as a draft: its bytes, the containers that
/// are open, and what stands last in the innermost one.
///
/// A legal order of calls: one value comes first of all; in a list any values; in an object, keys
/// with one value behind each; an end only where its own container is the innermost open one, and
/// not behind a key. An `Err` is want of memory and leaves the text as it was; but the key of a member may stand.
pub struct Json {
    alloc: Global,
    out: String,
    // the innermost container is the last
    containers: Vec<Container>,
    latest: Last,
}

impl Drop for Json {
    fn drop(self) {
        let Json {
            alloc: _alloc,
            out: _out,
            containers: _containers,
            latest: _latest,
        } = self;
    }
}

impl Model for Json {
    ghost use Rattle.json_text.specs.Drafts.{Draft};

    ghost Value = { Draft };

    ghost use Rattle.json_text.specs.Inside.{draft_inside, IsPartInside};

    ghost view = { draft_inside };

    ghost invariant = { IsPartInside };
}

impl Json {
    /// An empty text.
    pub fn new(alloc: Global) -> Json
        ensures { result ≡ empty_draft }
    {
        Json {
            alloc,
            out: String::new(alloc),
            containers: Vec::new(alloc),
            latest: Last::Opening,
        }
    }

    /// The text so far. Where it is finished it is the compact text of a JSON value.
    pub fn as_str(&self) -> &str
        ensures value { result.now ≡ self.now.bytes }
        ensures finished { IsFinished self.now → (v : JsonValue) × (result.now ≡ compact_text v) }
    {
        self.out.as_str()
    }

    /// The bytes of the text so far, which are UTF-8.
    pub fn bytes(&self) -> &[u8]
        ensures value { result.now ≡ self.now.bytes }
        ensures text { IsUtf8 result.now }
        ensures finished { IsFinished self.now → (v : JsonValue) × (result.now ≡ compact_text v) }
    {
        self.out.as_str().as_bytes()
    }

    /// The text, handed out. Where it is finished it is the compact text of a JSON value.
    pub fn into_text(self) -> String
        ensures value { string_bytes result ≡ self.bytes }
        ensures finished { IsFinished self → (v : JsonValue) × (string_bytes result ≡ compact_text v) }
    {
        let Json {
            alloc: _alloc,
            out: text,
            containers: _containers,
            latest: _latest,
        } = self;
        text
    }

    /// Begins an object.
    pub fn begin_object(&mut self) -> Result<(), AllocError>
        requires { TakesValue self.old }
        ensures ok { OnOk result (self.new ≡ begun Container.Object self.old) }
        ensures err { OnErr result (self.new ≡ self.old) }
    {
        self.begin(Container::Object)
    }

    /// Ends the innermost container, an object.
    pub fn end_object(&mut self) -> Result<(), AllocError>
        requires { TakesEnd Container.Object self.old }
        ensures ok { OnOk result (self.new ≡ ended Container.Object self.old) }
        ensures err { OnErr result (self.new ≡ self.old) }
    {
        self.end(Container::Object)
    }

    /// Begins a list, which JSON calls an array.
    pub fn begin_list(&mut self) -> Result<(), AllocError>
        requires { TakesValue self.old }
        ensures ok { OnOk result (self.new ≡ begun Container.Array self.old) }
        ensures err { OnErr result (self.new ≡ self.old) }
    {
        self.begin(Container::Array)
    }

    /// Ends the innermost container, a list.
    pub fn end_list(&mut self) -> Result<(), AllocError>
        requires { TakesEnd Container.Array self.old }
        ensures ok { OnOk result (self.new ≡ ended Container.Array self.old) }
        ensures err { OnErr result (self.new ≡ self.old) }
    {
        self.end(Container::Array)
    }

    /// A key of the innermost container, an object. Its value comes next.
    pub fn key(&mut self, name: &str) -> Result<(), AllocError>
        requires { TakesKey self.old }
        ensures ok { OnOk result (self.new ≡ with_key name.now self.old) }
        ensures err { OnErr result (self.new ≡ self.old) }
    {
        let quoted = quoted(self.alloc, name)?;
        append_all(&mut self.out, comma(self.latest), &[quoted.as_str(), ":"])?;
        self.latest = Last::Key;
        Ok(())
    }

    /// The value `null`.
    pub fn null(&mut self) -> Result<(), AllocError>
        requires { TakesValue self.old }
        ensures ok { OnOk result (self.new ≡ with_value null self.old) }
        ensures err { OnErr result (self.new ≡ self.old) }
    {
        self.value(&["null"])
    }

    /// The value `true` or `false`.
    pub fn boolean(&mut self, b: bool) -> Result<(), AllocError>
        requires { TakesValue self.old }
        ensures ok { OnOk result (self.new ≡ with_value (boolean b) self.old) }
        ensures err { OnErr result (self.new ≡ self.old) }
    {
        self.value(&[boolean_text(b)])
    }

    /// A text, escaped as `serde_json` escapes it.
    pub fn text(&mut self, t: &str) -> Result<(), AllocError>
        requires { TakesValue self.old }
        ensures ok { OnOk result (self.new ≡ with_value (text t.now) self.old) }
        ensures err { OnErr result (self.new ≡ self.old) }
    {
        let quoted = quoted(self.alloc, t)?;
        self.value(&[quoted.as_str()])
    }

    /// A whole number.
    pub fn whole(&mut self, n: i64) -> Result<(), AllocError>
        requires { TakesValue self.old }
        ensures ok { OnOk result (self.new ≡ with_value (whole n) self.old) }
        ensures err { OnErr result (self.new ≡ self.old) }
    {
        let mut buffer = itoa::Buffer::new();
        self.value(&[buffer.format(n)])
    }

    /// A whole number that isn't below 0.
    pub fn count(&mut self, n: u128) -> Result<(), AllocError>
        requires { TakesValue self.old }
        ensures ok { OnOk result (self.new ≡ with_value (whole (pos n)) self.old) }
        ensures err { OnErr result (self.new ≡ self.old) }
    {
        let mut buffer = itoa::Buffer::new();
        self.value(&[buffer.format(n)])
    }

    /// So many tenths, with one decimal.
    pub fn tenths(&mut self, n: u128) -> Result<(), AllocError>
        requires { TakesValue self.old }
        ensures ok { OnOk result (self.new ≡ with_value (tenths n) self.old) }
        ensures err { OnErr result (self.new ≡ self.old) }
    {
        let mut buffer = itoa::Buffer::new();
        let tenth = digit((n % 10) as u32);
        self.value(&[buffer.format(n / 10), ".", tenth])
    }

    /// A point as the list of its longitude and its latitude in degrees, with six decimals each.
    pub fn degrees(&mut self, p: Point) -> Result<(), AllocError>
        requires { TakesValue self.old }
        ensures ok { OnOk result (self.new ≡ with_value (location p.lon p.lat) self.old) }
        ensures err { OnErr result (self.new ≡ self.old) }
    {
        let (lon, lat) = (p.lon.unsigned_abs(), p.lat.unsigned_abs());
        let (mut east, mut north) = (itoa::Buffer::new(), itoa::Buffer::new());
        self.value(&[
            "[",
            sign_text(p.lon),
            east.format(lon / 1_000_000),
            ".",
            digit(lon / 100_000 % 10),
            digit(lon / 10_000 % 10),
            digit(lon / 1_000 % 10),
            digit(lon / 100 % 10),
            digit(lon / 10 % 10),
            digit(lon % 10),
            ",",
            sign_text(p.lat),
            north.format(lat / 1_000_000),
            ".",
            digit(lat / 100_000 % 10),
            digit(lat / 10_000 % 10),
            digit(lat / 1_000 % 10),
            digit(lat / 100 % 10),
            digit(lat / 10 % 10),
            digit(lat % 10),
            "]",
        ])
    }

    /// A value that was written before, whole.
    pub fn part(&mut self, part: &Json) -> Result<(), AllocError>
        requires takes { TakesValue self.old }
        requires whole { IsFinished part.now }
        ensures ok { OnOk result (self.new ≡ with_text part.now.bytes self.old) }
        ensures err { OnErr result (self.new ≡ self.old) }
    {
        self.value(&[part.as_str()])
    }

    /// A whole value, in pieces.
    fn value(&mut self, pieces: &[&str]) -> Result<(), AllocError>
        requires takes { TakesValue self.old }
        requires text { IsValueText (flat_map (λ piece. piece.now) pieces.now) }
        ensures ok { OnOk result (self.new ≡ with_text (flat_map (λ piece. piece.now) pieces.now) self.old) }
        ensures err { OnErr result (self.new ≡ self.old) }
    {
        append_all(&mut self.out, comma(self.latest), pieces)?;
        self.latest = Last::Value;
        Ok(())
    }

    fn begin(&mut self, container: Container) -> Result<(), AllocError>
        requires { TakesValue self.old }
        ensures ok { OnOk result (self.new ≡ begun container self.old) }
        ensures err { OnErr result (self.new ≡ self.old) }
    {
        self.containers.push(container)?;
        match append_all(
            &mut self.out,
            comma(self.latest),
            &[opening_bracket(container)],
        ) {
            Ok(()) => {
                self.latest = Last::Opening;
                Ok(())
            }
            Err(error) => {
                self.containers.pop();
                Err(error)
            }
        }
    }

    fn end(&mut self, container: Container) -> Result<(), AllocError>
        requires { TakesEnd container self.old }
        ensures ok { OnOk result (self.new ≡ ended container self.old) }
        ensures err { OnErr result (self.new ≡ self.old) }
    {
        self.out.push_str(closing_bracket(container))?;
        self.containers.pop();
        self.latest = Last::Value;
        Ok(())
    }
}

fn boolean_text(b: bool) -> &'static str
    ensures { result.now ≡ boolean_text b }
{
    if b { "true" } else { "false" }
}

fn opening_bracket(container: Container) -> &'static str
    ensures { result.now ≡ opening_bracket container }
{
    match container {
        Container::Object => "{",
        Container::Array => "[",
    }
}

fn closing_bracket(container: Container) -> &'static str
    ensures { result.now ≡ closing_bracket container }
{
    match container {
        Container::Object => "}",
        Container::Array => "]",
    }
}

/// The comma behind a value, where another item or member follows.
fn comma(latest: Last) -> &'static str
    ensures { result.now ≡ comma_text latest }
{
    match latest {
        Last::Value => ",",
        Last::Opening | Last::Key => "",
    }
}

/// The text between its quotes, escaped by `serde_json`. Only memory can be wanting for it.
fn quoted(alloc: Global, text: &str) -> Result<String, AllocError>
    ensures { IfOk result (λ quote. string_bytes quote ≡ quoted text.now) }
{
    let value = Value::try_from_str(alloc, text)?;
    value.to_string(alloc)
}
