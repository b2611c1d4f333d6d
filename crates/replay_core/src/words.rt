// The words of the command line, read by hand.
ghost use Rattle.std.specs.Prelude.{◌≡◌, ◌≤◌, map, string_bytes, option_map, IfSome};
ghost use Rattle.ecam_spec.specs.Command.{command_of, form_of_two, form_of_three, form_of_four, drill_of, seed_of, moments_of, form_of_five, number_of};
ghost use Rattle.replay_core.specs.Words.{asked, IsShort};

// What the words ask for, with the names of files and the numbers.
pub(crate) enum Command<'a> {
    Check {
        book: &'a str,
    },
    Replay {
        book: &'a str,
        record: &'a str,
        limit: u32,
    },
    Why {
        book: &'a str,
        record: &'a str,
    },
    Drill {
        book: &'a str,
        seed: u64,
        moments: u32,
    },
    Migrate {
        book: &'a str,
    },
    Callouts {
        book: &'a str,
        record: &'a str,
        parameter: &'a str,
    },
    Advise {
        book: &'a str,
        record: &'a str,
        limits: &'a str,
    },
    Report {
        book: &'a str,
        record: &'a str,
    },
    Words {
        book: &'a str,
        record: &'a str,
    },
}

// The command, if the words have one of the forms.
pub(crate) fn parse(words: &[String]) -> Option<Command<'_>>
    ensures asks { option_map asked result ≡ command_of (map string_bytes words.now) }
    ensures short { IfSome result IsShort }
{
    let count = words.len();
    if count == 2 {
        return parse_two(words[0].as_str(), words[1].as_str());
    }
    if count == 3 {
        return parse_three(words[0].as_str(), words[1].as_str(), words[2].as_str());
    }
    if count == 4 {
        return parse_four(
            words[0].as_str(),
            words[1].as_str(),
            words[2].as_str(),
            words[3].as_str(),
        );
    }
    if count == 5 {
        return parse_five(
            words[0].as_str(),
            words[1].as_str(),
            words[2].as_str(),
            words[3].as_str(),
            words[4].as_str(),
        );
    }
    None
}

fn parse_two<'a>(form: &str, book: &'a str) -> Option<Command<'a>>
    ensures asks { option_map asked result ≡ form_of_two form.now book.now }
    ensures short { IfSome result IsShort }
{
    if form == "check" {
        return Some(Command::Check { book });
    }
    if form == "migrate" {
        return Some(Command::Migrate { book });
    }
    None
}

fn parse_three<'a>(form: &str, book: &'a str, record_name: &'a str) -> Option<Command<'a>>
    ensures asks { option_map asked result ≡ form_of_three form.now book.now record_name.now }
    ensures short { IfSome result IsShort }
{
    if form == "replay" {
        return Some(Command::Replay {
            book,
            record: record_name,
            limit: u32::MAX,
        });
    }
    if form == "why" {
        return Some(Command::Why {
            book,
            record: record_name,
        });
    }
    if form == "report" {
        return Some(Command::Report {
            book,
            record: record_name,
        });
    }
    if form == "words" {
        return Some(Command::Words {
            book,
            record: record_name,
        });
    }
    None
}

fn parse_four<'a>(form: &str, book: &'a str, second: &'a str, third: &'a str) -> Option<Command<'a>>
    ensures asks { option_map asked result ≡ form_of_four form.now book.now second.now third.now }
    ensures short { IfSome result IsShort }
{
    if form == "drill" {
        return parse_drill(book, second, third);
    }
    if form == "callouts" {
        return Some(Command::Callouts {
            book,
            record: second,
            parameter: third,
        });
    }
    if form == "advise" {
        return Some(Command::Advise {
            book,
            record: second,
            limits: third,
        });
    }
    None
}

fn parse_drill<'a>(book: &'a str, seed: &str, moments: &str) -> Option<Command<'a>>
    ensures asks { option_map asked result
        ≡ drill_of book.now (seed_of seed.now) (moments_of moments.now) }
    ensures short { IfSome result IsShort }
{
    match (
        parse_number(seed, 20, u64::MAX),
        parse_number(moments, 7, 1_000_000),
    ) {
        (Some(seed), Some(moments)) => Some(Command::Drill {
            book,
            seed,
            moments: moments as u32,
        }),
        (Some(_), None) => None,
        (None, _) => None,
    }
}

fn parse_five<'a>(
    form: &str,
    book: &'a str,
    record_name: &'a str,
    option: &str,
    limit: &str,
) -> Option<Command<'a>>
    ensures asks { option_map asked result
        ≡ form_of_five form.now book.now record_name.now option.now limit.now }
    ensures short { IfSome result IsShort }
{
    if form != "replay" {
        return None;
    }
    if option != "--limit" {
        return None;
    }
    match parse_number(limit, 10, u64::from(u32::MAX)) {
        Some(limit) => Some(Command::Replay {
            book,
            record: record_name,
            limit: limit as u32,
        }),
        None => None,
    }
}

// A number in decimal digits, so many at most, that isn't larger than `most`.
fn parse_number(word: &str, longest: usize, most: u64) -> Option<u64>
    requires { longest ≤ 20 }
    ensures number { result ≡ number_of longest most word.now }
    ensures most { IfSome result (λ n. n ≤ most) }
{
    let digits = word.as_bytes();
    if digits.is_empty() || digits.len() > longest {
        return None;
    }
    let mut number: u128 = 0;
    for digit in digits {
        if !digit.is_ascii_digit() {
            return None;
        }
        number = number * 10 + u128::from(*digit - b'0');
    }
    if number > u128::from(most) {
        return None;
    }
    Some(number as u64)
}
