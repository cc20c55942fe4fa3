// What the words of the command line ask for.
ghost use Rattle.std.specs.Prelude.{◌≡◌, map, string_bytes};
ghost use Rattle.std.specs.Option.{option_map};
ghost use Rattle.transfer.specs.Commands.{blank_order, file_order, kind_in, order_in, order_of};

use storage::Kind;

pub enum Command<'a> {
    Walk,
    Blank {
        replicas: usize,
        kind: Kind,
        stores: u32,
        path: &'a str,
    },
    Check(&'a str),
    Show(&'a str),
}

// The first word is the program's own name. A function and no TryFrom: there is no error to name.
pub fn command_of(words: &[String]) -> Option<Command<'_>>
    ensures { option_map order_of result ≡ order_in (map string_bytes words.now) }
{
    match words {
        [_] => Some(Command::Walk),
        [_, verb, path] => on_file(verb.as_str(), path.as_str()),
        [_, verb, replicas, kind, stores, path] => blank(
            verb.as_str(),
            replicas.as_str(),
            kind.as_str(),
            stores.as_str(),
            path.as_str(),
        ),
        _ => None,
    }
}

// A command for a file that is there, if the verb is one.
fn on_file<'a>(verb: &str, path: &'a str) -> Option<Command<'a>>
    ensures { option_map order_of result ≡ file_order verb.now path.now }
{
    match verb {
        "check" => Some(Command::Check(path)),
        "show" => Some(Command::Show(path)),
        _ => None,
    }
}

// The command for a file that is to be made, if the verb is that one. A number may have a plus in front.
#[tactic(auto, using(crate::proofs::NumberReading::parsed))]
fn blank<'a>(
    verb: &str,
    replicas: &str,
    kind: &str,
    stores: &str,
    path: &'a str,
) -> Option<Command<'a>>
    ensures { option_map order_of result ≡ blank_order verb.now replicas.now kind.now stores.now path.now }
{
    if verb != "blank" {
        return None;
    }
    Some(Command::Blank {
        replicas: replicas.parse().ok()?,
        kind: kind_in(kind)?,
        stores: stores.parse().ok()?,
        path,
    })
}

// The kind of one digit. By hand: `parse` would take a plus and zeros in front.
fn kind_in(word: &str) -> Option<Kind>
    ensures { result ≡ kind_in word.now }
{
    let [digit] = word.as_bytes() else {
        return None;
    };
    Kind::try_from(u64::from(digit.checked_sub(b'0')?)).ok()
}
