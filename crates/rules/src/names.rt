// Names in the body of a command.
ghost use Rattle.std.specs.Prelude.{◌≡◌, true, IfSome};
ghost use Rattle.std.specs.Option.{option_map};
ghost use Rattle.contents.specs.Changes.{is_name};
ghost use Rattle.rules.specs.Names.{name_ahead};

// The name that stands behind its length at the front of some bytes, and what follows it.
pub(crate) fn name_ahead(bytes: &[u8]) -> Option<(&[u8], &[u8])>
    ensures ahead { option_map (λ p. (p.0.now, p.1.now)) result ≡ name_ahead bytes.now }
    ensures named { IfSome result (λ p. is_name p.0.now ≡ true) }
{
    let [len, rest @ ..] = bytes else {
        return None;
    };
    if *len < 5 || *len > 16 {
        return None;
    }
    rest.split_at_checked(*len as usize)
}
