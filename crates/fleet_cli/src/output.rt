// What a form makes of its input.
ghost use Rattle.std.specs.Prelude.{◌^◌, ◌-◌, ◌<◌, length};
ghost use Rattle.form_base.specs.Stops.{Answers};
ghost use Rattle.fleet_cli.specs.Forms.{form_view, spec_of};

use crate::form::Form;
use fleet_assign::form::assign_form;
use fleet_check::check::check;
use fleet_replay::form::replay_form;
use fleet_route::form::route_form;
use fleet_script::form::script_form;
use form_base::{Report, Stop};
use std::alloc::Global;

// What a form makes of an input within its limit.
pub(crate) fn output(alloc: Global, form: Form<'_>, input: &[u8]) -> Result<Report, Stop>
    requires { length input.now < 2 ^ 32 - 1 }
    ensures { Answers (spec_of (form_view form.entry)) input.now result }
{
    match form {
        Form::Check => check(alloc, input),
        Form::Route { from, to } => route_form(alloc, from, to, input),
        Form::Script => script_form(alloc, input),
        Form::Replay => replay_form(alloc, input),
        Form::Assign => assign_form(alloc, input),
    }
}
