// One row of the sheet: its columns, each right-aligned in the part of the row that it is lent.
#![tactic(auto)]

ghost use Rattle.std.specs.Prelude.{◌≡◌, true, [], ◌∷◌, ◌≤◌, length};
ghost use Rattle.model.specs.Text.{decimal, print_instant};
ghost use Rattle.model.specs.Soundness.{authorization_in};
ghost use Rattle.model.specs.ReportFacts.{Fits};
ghost use Rattle.columns.specs.Columns.{head_columns};
ghost use Rattle.model.specs.Report.{aligned, print_sign, print_option, report_row};

use model::{Authorization, Head};

// Fills a column: blanks, then the text.
fn put_right(column: &mut [u8], text: &[u8])
    requires { length text.now ≤ length column.old }
    ensures { column.new ≡ aligned (length column.old) text.now }
{
    let n = column.len() - text.len();
    column.fill(b' ');
    column[n..].copy_from_slice(text);
}

// Fills a column with a number.
fn put_number(column: &mut [u8], n: u32)
    requires { length (decimal n) ≤ length column.old }
    ensures { column.new ≡ aligned (length column.old) (decimal n) }
{
    let mut text = [0u8; 10];
    let i = printing::decimal_text(&mut text, n);
    put_right(column, &text[i..]);
}

// Fills a column with an instant: the last one is `inf`.
fn put_instant(column: &mut [u8], t: u32)
    requires { length (print_instant t) ≤ length column.old }
    ensures { column.new ≡ aligned (length column.old) (print_instant t) }
{
    if t == 4294967295 {
        put_right(column, b"inf");
        return;
    }
    put_number(column, t);
}

fn sign_byte(h: Head) -> u8
    ensures { result ∷ [] ≡ print_sign h }
{
    if h.negative {
        return b'-';
    }
    b'+'
}

fn option_byte(h: Head) -> u8
    ensures { result ∷ [] ≡ print_option h }
{
    if h.negative {
        return b'n';
    }
    if h.option {
        return b'y';
    }
    b'n'
}

// Fills the columns up to the option. A column with the blank before it is a column that is one wider.
fn put_head(row: &mut [u8], h: Head)
    requires { (length row.old ≡ 21) × Fits h }
    ensures { row.new ≡ head_columns h }
{
    put_number(&mut row[0..5], h.label as u32);
    put_number(&mut row[5..10], h.grantor as u32);
    put_number(&mut row[10..15], h.subject as u32);
    put_number(&mut row[15..17], h.mode as u32);
    row[17..21].copy_from_slice(&[b' ', sign_byte(h), b' ', option_byte(h)]);
}

// Fills a row.
pub fn put_row(row: &mut [u8], a: Authorization)
    requires { (length row.old ≡ 44) × (authorization_in a ≡ true) }
    ensures { row.new ≡ report_row a }
{
    let i = a.interval;
    put_head(&mut row[0..21], a.head);
    put_instant(&mut row[21..32], i.start);
    put_instant(&mut row[32..43], i.end);
    row[43] = b'\n';
}
