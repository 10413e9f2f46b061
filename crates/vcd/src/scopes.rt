//! The scopes that names stand in: the parts of a name before its last dot.

ghost use Rattle.std.specs.Prelude.{◌≡◌, ◌==◌, ◌<◌, ◌++◌, [], ◌∷◌, length, position, MatchOption, IfSome};
ghost use Rattle.devices.specs.Outgoing.{Adds};
ghost use Rattle.vcd.specs.Scopes.{close_lines, open_line, open_lines, reference_of, scope_lines, scopes_of};

use devices::{Sink, Writer};

/// Closes the innermost open scope.
pub(crate) const CLOSE_LINE: &[u8] = b"$upscope $end\n";

/// Writes what leads from the scopes of one name to those of another: the scopes that they share stay open.
pub fn change_scopes<W: Sink>(writer: &mut Writer<'_, W>, from: &[u8], to: &[u8])
    ensures { Adds writer.old writer.new (scope_lines (scopes_of from.now) (scopes_of to.now)) }
{
    let mut from = from;
    let mut to = to;
    while let Some((from_rest, to_rest)) = within_shared(from, to) {
        from = from_rest;
        to = to_rest;
    }
    close_scopes(writer, from);
    open_scopes(writer, to);
}

/// Closes the scopes of a name.
pub fn close_scopes<W: Sink>(writer: &mut Writer<'_, W>, name: &[u8])
    ensures { Adds writer.old writer.new (close_lines (scopes_of name.now)) }
{
    let mut name = name;
    while let Some((_, within)) = first_scope(name) {
        writer.text(CLOSE_LINE);
        name = within;
    }
}

fn open_scopes<W: Sink>(writer: &mut Writer<'_, W>, name: &[u8])
    ensures { Adds writer.old writer.new (open_lines (scopes_of name.now)) }
{
    let mut name = name;
    while let Some((scope, within)) = first_scope(name) {
        open_scope(writer, scope);
        name = within;
    }
}

/// Opens one scope.
pub(crate) fn open_scope<W: Sink>(writer: &mut Writer<'_, W>, scope: &[u8])
    ensures { Adds writer.old writer.new (open_line scope.now) }
{
    writer.text(b"$scope module ");
    writer.text(scope);
    writer.text(b" $end\n");
}

/// Writes a name as it stands within its scopes.
pub(crate) fn reference<W: Sink>(writer: &mut Writer<'_, W>, name: &[u8])
    ensures { Adds writer.old writer.new (reference_of name.now) }
{
    let mut name = name;
    while let Some((_, within)) = first_scope(name) {
        name = within;
    }
    writer.text(name);
}

// The names within the first scope of each, if it is the same one.
fn within_shared<'a>(from: &'a [u8], to: &'a [u8]) -> Option<(&'a [u8], &'a [u8])>
    ensures lines { MatchOption result
        (scope_lines (scopes_of from.now) (scopes_of to.now) ≡ close_lines (scopes_of from.now) ++ open_lines (scopes_of to.now))
        (λ rest. scope_lines (scopes_of from.now) (scopes_of to.now) ≡ scope_lines (scopes_of rest.0.now) (scopes_of rest.1.now)) }
    ensures less { IfSome result (λ rest. length rest.0.now < length from.now) }
{
    let (left, from_rest) = first_scope(from)?;
    let (entered, to_rest) = first_scope(to)?;
    if left == entered {
        Some((from_rest, to_rest))
    } else {
        None
    }
}

// The first scope of a name, and the name within it.
fn first_scope(name: &[u8]) -> Option<(&[u8], &[u8])>
    ensures scopes { MatchOption result (scopes_of name.now ≡ [])
        (λ parts. scopes_of name.now ≡ parts.0.now ∷ scopes_of parts.1.now) }
    ensures reference { MatchOption result (reference_of name.now ≡ name.now)
        (λ parts. reference_of name.now ≡ reference_of parts.1.now) }
    ensures less { IfSome result (λ parts. length parts.1.now < length name.now) }
{
    let dot = first_dot(name)?;
    Some((&name[..dot], &name[dot + 1..]))
}

fn first_dot(name: &[u8]) -> Option<usize>
    ensures { result ≡ position (λ byte. byte == 46) name.now }
{
    name.iter().position(|byte| *byte == b'.')
}
