//! The lines of `show chassis`.
ghost use Rattle.std.specs.Prelude.{◌≡◌, ◌≤◌, length};
ghost use Rattle.lldp_engine.specs.ChassisLines.{management_lines, chassis_lines};
ghost use Rattle.lldp_engine.specs.Takes.{Takes};
ghost use Rattle.lldp_pdu.specs.Capabilities.{caps_fields};
ghost use Rattle.lldp_text.specs.Capabilities.{capabilities_text};
ghost use Rattle.lldp_engine.specs.Frames.{capabilities_of};

use crate::agent::configuration::Configuration;
use crate::agent::options::Role;
use crate::show::line::{LineSink, Value, put_line};

const FRONT: &[u8] = b"local-chassis.";

fn text_of_role(role: Role) -> &'static [u8]
    ensures value { result.now ≡ capabilities_text (caps_fields (capabilities_of role)) }
    ensures short { length result.now ≤ 10 }
{
    match role {
        Role::Station => b"Station:on",
        Role::Bridge => b"Bridge:on",
        Role::Router => b"Router:on",
    }
}

/// Writes the line of the management address, if the agent has one.
fn put_management<S: LineSink>(sink: &mut S, management: Option<[u8; 4]>)
    ensures { Takes S.takes sink.old sink.new (management_lines management) }
{
    if let Some(address) = management {
        put_line(sink, FRONT, b"mgmt=", Value::OwnAddress(&address));
    }
}

/// Writes the lines of `show chassis`.
pub(crate) fn put_chassis<S: LineSink>(sink: &mut S, c: &Configuration)
    ensures { Takes S.takes sink.old sink.new (chassis_lines c.now) }
{
    put_line(sink, FRONT, b"mac=", Value::Mac(&c.mac));
    put_line(sink, FRONT, b"name=", Value::Text(c.hostname.as_slice()));
    put_line(
        sink,
        FRONT,
        b"descr=",
        Value::Text(c.description.as_slice()),
    );
    put_line(sink, FRONT, b"caps=", Value::Word(text_of_role(c.role)));
    put_management(sink, c.management);
}
