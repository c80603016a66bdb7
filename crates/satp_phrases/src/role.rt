ghost use Rattle.std.specs.Prelude.{◌≡◌};
ghost use Rattle.satp_phrases.specs.Roles.{role_text};

use satp_base::Role;

/// The word for a side of a session.
pub fn role_text(role: Role) -> &'static [u8]
    ensures { result.now ≡ role_text role }
{
    match role {
        Role::Origin => b"origin",
        Role::Recipient => b"recipient",
    }
}
