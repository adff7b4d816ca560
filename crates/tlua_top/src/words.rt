ghost use Rattle.std.specs.Prelude.{◌≡◌, map, string_bytes};
ghost use Rattle.std.specs.Option.{option_map};
ghost use Rattle.tlua_top.specs.Words.{is_option, file_behind, file_to_run, ends_with, kind_of_word};

use tl_base::ModuleKind;

fn is_option(word: &str) -> bool
    ensures { result ≡ is_option word.now }
{
    match word.as_bytes().first() {
        None => false,
        Some(byte) => *byte == b'-',
    }
}

fn file_behind<'a>(command: &str, file: &'a str) -> Option<&'a str>
    ensures { option_map (λ r. r.now) result ≡ file_behind command.now file.now }
{
    if command == "run" && !is_option(file) {
        Some(file)
    } else {
        None
    }
}

/// The file that the words `run FILE` ask to run. All other words have no reading.
pub fn file_to_run(words: &[String]) -> Option<&str>
    ensures { option_map (λ r. r.now) result ≡ file_to_run (map (λ word. string_bytes word) words.now) }
{
    match words {
        [command, file] => file_behind(command.as_str(), file.as_str()),
        _ => None,
    }
}

fn ends_with(whole: &[u8], tail: &[u8]) -> bool
    ensures { result ≡ ends_with whole.now tail.now }
{
    whole.ends_with(tail)
}

/// The kind of a module by its file word's ending.
pub fn kind_of_word(file: &str) -> Option<ModuleKind>
    ensures { result ≡ kind_of_word file.now }
{
    if ends_with(file.as_bytes(), b".tl") {
        return Some(ModuleKind::Typed);
    }
    if ends_with(file.as_bytes(), b".lua") {
        return Some(ModuleKind::Untyped);
    }
    None
}
