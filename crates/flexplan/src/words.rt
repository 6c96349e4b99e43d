// The words of the command line, read by hand: no memory is needed to refuse them.

ghost use Rattle.std.specs.Prelude.{◌≡◌};
ghost use Rattle.std.specs.Option.{option_map};
ghost use Rattle.flexplan.specs.Words.{four_paths, is_path, one_path, paths, request, request_of};
ghost use Rattle.flexplan.specs.Words.{texts, three_paths};

/// Where the input lies.
#[derive(Clone, Copy)]
pub struct Paths<'a> {
    pub feed: &'a str,
    pub times: &'a str,
    pub queries: &'a str,
}

/// What the words ask for.
#[derive(Clone, Copy)]
pub enum Command<'a> {
    /// Answers to the queries of a file, over a feed folder and a times folder.
    Plan(Paths<'a>),
    /// The faults of a feed folder.
    Lint(&'a str),
    /// A certificate of answers to the queries of a file.
    Certify(Paths<'a>),
    /// Whether a certificate is valid, and where it lies.
    Check(Paths<'a>, &'a str),
}

// A word that isn't empty and doesn't begin with a hyphen.
fn is_path(word: &str) -> bool
    ensures { result ≡ is_path word.now }
{
    match word.as_bytes() {
        [] => false,
        [first, ..] => *first != b'-',
    }
}

// The paths of a command with three.
fn three_paths<'a>(name: &str, words: &[&'a str]) -> Option<Paths<'a>>
    ensures { option_map paths result ≡ three_paths name.now (texts words.now) }
{
    match words {
        [command, feed, times, queries]
            if *command == name && is_path(feed) && is_path(times) && is_path(queries) => {
            Some(Paths {
                feed,
                times,
                queries,
            })
        }
        _ => None,
    }
}

// The path of a command with one.
fn one_path<'a>(name: &str, words: &[&'a str]) -> Option<&'a str>
    ensures { option_map (λ path. path.now) result ≡ one_path name.now (texts words.now) }
{
    match words {
        [command, path] if *command == name && is_path(path) => Some(path),
        _ => None,
    }
}

// The paths of a command with four, the last one apart.
fn four_paths<'a>(name: &str, words: &[&'a str]) -> Option<(Paths<'a>, &'a str)>
    ensures { option_map (λ found. (paths found.0, found.1.now)) result
        ≡ four_paths name.now (texts words.now) }
{
    match words {
        [command, feed, times, queries, cert]
            if *command == name
                && is_path(feed)
                && is_path(times)
                && is_path(queries)
                && is_path(cert) => {
            let paths = Paths {
                feed,
                times,
                queries,
            };
            Some((paths, cert))
        }
        _ => None,
    }
}

/// The command of the words, or none where they are of no accepted form.
pub fn command_of<'a>(words: &[&'a str]) -> Option<Command<'a>>
    ensures { option_map request result ≡ request_of (texts words.now) }
{
    if let Some(paths) = three_paths("plan", words) {
        return Some(Command::Plan(paths));
    }
    if let Some(folder) = one_path("lint", words) {
        return Some(Command::Lint(folder));
    }
    if let Some(paths) = three_paths("certify", words) {
        return Some(Command::Certify(paths));
    }
    if let Some((paths, cert)) = four_paths("check", words) {
        return Some(Command::Check(paths, cert));
    }
    None
}
