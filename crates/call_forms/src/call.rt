// Any call as numbers, and whether numbers are a call's form.

#![tactic(auto, unfolding(crate::specs::Forms::is_form, call_numbers::specs::Calls::call_numbers, call_numbers::specs::Events::router_numbers))]

ghost use Rattle.std.specs.Prelude.{◌≡◌};
ghost use Rattle.lists.specs.Lists.{pad};
ghost use Rattle.call_numbers.specs.Calls.{call_numbers};
ghost use Rattle.call_numbers.specs.Events.{router_numbers};
ghost use Rattle.call_forms.specs.Claims.{CallFormClaims};
ghost use Rattle.call_forms.specs.Forms.{is_form};

use crate::arbitrations::arbitrate_form;
use crate::inputs::{device_form, input_form};
use crate::panels::panel_form;
use crate::payloads::event_form;
use crate::reads::read_form;
use crate::shared::{bare_form, handle_form};
use crate::shortcuts::shortcut_form;
use call_numbers::call::call_at;
use calls::call::{Call, CloseCall, RouterCall};

fn router_form(call: RouterCall) -> [u64; 32]
    ensures { result ≡ pad 32 0 (router_numbers call) }
{
    match call {
        RouterCall::Route(event) => event_form(event),
        RouterCall::ReleaseSurface(h) => handle_form(24, h),
        RouterCall::ReleaseAll => bare_form(25),
    }
}

fn close_form(call: CloseCall) -> [u64; 32]
    ensures { result ≡ pad 32 0 (call_numbers (Call.Close call)) }
{
    match call {
        CloseCall::CloseSurface(h) => handle_form(21, h),
        CloseCall::Shutdown => bare_form(22),
    }
}

pub fn numbers_of(call: Call) -> [u64; 32]
    ensures { result ≡ pad 32 0 (call_numbers call) }
{
    match call {
        Call::Panel(c) => panel_form(c),
        Call::Input(c) => input_form(c),
        Call::ReleaseDevice(a) => device_form(a),
        Call::Shortcut(c) => shortcut_form(c),
        Call::Arbitrate(a) => arbitrate_form(a),
        Call::Close(c) => close_form(c),
        Call::Router(c) => router_form(c),
        Call::Read(c) => read_form(c),
    }
}

// Whether the numbers are what their call is written as.
pub fn is_form(words: [u64; 32]) -> bool
    ensures { result ≡ is_form words }
{
    words == numbers_of(call_at(words))
}

// No call has two forms, and every call has one.
pub fn call_form_claims()
    ensures { CallFormClaims }
{}
