//! Replies without a result.

ghost use Rattle.std.specs.Prelude.{◌≡◌, IfOk, OnOk, ◌∷◌, [], string_bytes};
ghost use Rattle.json_text.specs.Values.{compact_text};
ghost use Rattle.json_text.specs.Drafts.{TakesKey, TakesValue, begun, with_value};
ghost use Rattle.json_text.specs.Wholes.{with_members};
ghost use Rattle.json_text.specs.declared.draft.Container.TheVariants as container;
ghost use Rattle.refusal_texts.specs.Codes.{lack_message};
ghost use Rattle.refusal_texts.specs.Refusals.{bad_request_text, bad_request_value, busy_text, busy_value, code_member, lack_value, message_member, refusal_value, version_member};

use crate::lacks::Lack;
use crate::reply_codes::Code;
use json_text::Json;
use std::alloc::{AllocError, Global};

/// The reply to a line of no form.
pub fn bad_request_text() -> &'static str
    ensures value { result.now ≡ compact_text bad_request_value }
    ensures bytes { result.now ≡ bad_request_text }
{
    "{\"code\":\"BadRequest\"}"
}

/// The reply for which there was no memory.
pub fn busy_text() -> &'static str
    ensures value { result.now ≡ compact_text busy_value }
    ensures bytes { result.now ≡ busy_text }
{
    "{\"code\":\"Busy\"}"
}

// What became of the request, in an object that begins.
fn begin_reply(json: &mut Json, kind: Code) -> Result<(), AllocError>
    requires { TakesValue json.old }
    ensures ok { OnOk result (json.new ≡ with_members (code_member kind ∷ []) (begun container.Object json.old)) }
    ensures more { OnOk result (TakesKey json.new) }
{
    json.begin_object()?;
    json.text_member("code", kind.as_str())?;
    Ok(())
}

// The number of the metric that a reply is made under.
fn push_version(json: &mut Json, number: u32) -> Result<(), AllocError>
    requires { TakesKey json.old }
    ensures ok { OnOk result (json.new ≡ with_members (version_member number ∷ []) json.old) }
    ensures more { OnOk result (TakesKey json.new) }
{
    let mut buffer = itoa::Buffer::new();
    json.text_member("data_version", buffer.format(number))?;
    Ok(())
}

/// What became of a request under a metric of this number, in an object that begins and stays open. An `Err` is want of
/// memory.
pub fn begin_version_reply(json: &mut Json, kind: Code, number: u32) -> Result<(), AllocError>
    requires { TakesValue json.old }
    ensures ok { OnOk result (json.new ≡ with_members (code_member kind ∷ version_member number ∷ []) (begun container.Object json.old)) }
    ensures more { OnOk result (TakesKey json.new) }
{
    begin_reply(json, kind)?;
    push_version(json, number)?;
    Ok(())
}

// What a request lacks under a metric of this number.
fn push_lack(json: &mut Json, number: u32, lack: Lack, message: &str) -> Result<(), AllocError>
    requires takes { TakesValue json.old }
    requires says { message.now ≡ lack_message lack }
    ensures { OnOk result (json.new ≡ with_value (lack_value number lack) json.old) }
{
    begin_version_reply(json, lack.code(), number)?;
    json.text_member("message", message)?;
    json.end_object()?;
    Ok(())
}

/// What a request lacks under a metric of this number.
pub fn lack_text(alloc: Global, number: u32, lack: Lack) -> Result<String, AllocError>
    ensures { IfOk result (λ text. string_bytes text ≡ compact_text (lack_value number lack)) }
{
    let message = lack.message(alloc)?;
    let mut json = Json::new(alloc);
    push_lack(&mut json, number, lack, message.as_str())?;
    Ok(json.into_text())
}

// A refusal that no metric has part in.
fn push_refusal(json: &mut Json, kind: Code, message: &str) -> Result<(), AllocError>
    requires { TakesValue json.old }
    ensures { OnOk result (json.new ≡ with_value (refusal_value kind message.now) json.old) }
{
    begin_reply(json, kind)?;
    json.text_member("message", message)?;
    json.end_object()?;
    Ok(())
}

/// A refusal that no metric has part in.
pub fn refusal_text(alloc: Global, kind: Code, message: &str) -> Result<String, AllocError>
    ensures { IfOk result (λ text. string_bytes text ≡ compact_text (refusal_value kind message.now)) }
{
    let mut json = Json::new(alloc);
    push_refusal(&mut json, kind, message)?;
    Ok(json.into_text())
}
