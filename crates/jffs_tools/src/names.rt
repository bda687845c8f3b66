//! The names of the rules that a record may break.

ghost use Rattle.std.specs.Prelude.{◌≡◌};
ghost use Rattle.jffs_tools.specs.Rules.{rule_text};

use jffs_node::Why;

/// The name of the rule that a bad record breaks.
pub(crate) fn rule_name(why: Why) -> &'static str
    ensures { result.now ≡ rule_text why }
{
    match why {
        Why::Magic => "Magic",
        Why::Kind => "Kind",
        Why::Flags => "Flags",
        Why::Name => "Name",
        Why::Form => "Form",
        Why::Spare => "Spare",
        Why::Size => "Size",
        Why::Pad => "Pad",
    }
}
