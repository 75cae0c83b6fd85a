ghost use Rattle.std.specs.Prelude.{◌≡◌, ◌<◌, ◌++◌, codes};
ghost use Rattle.std.specs.Fmt.{decimal};
ghost use Rattle.report_lines.specs.FirstLines.{line};

/// Returns the reply to an edit that was refused by this number, which is below 10: the line `refused N`.
pub fn refused_line(number: u8) -> [u8; 10]
    requires { number < 10 }
    ensures { result ≡ line (codes "refused " ++ decimal number) }
{
    let mut text = *b"refused 0\n";
    text[8] = b'0' + number;
    text
}
