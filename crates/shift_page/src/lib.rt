// The shift page: status reports in lines of 38 characters and a line feed.
#![tactic(auto)]

ghost use Rattle.std.specs.Prelude.{◌≡◌, [], ◌∷◌, ◌++◌, map, ◌+◌, ◌*◌, ◌≤◌, length, Err};
ghost use Rattle.octets.specs.Answers.{fine};
ghost use Rattle.octets.specs.Checks.{found};
ghost use Rattle.octets.specs.Lent.{Wrote, lend};
ghost use Rattle.time.specs.Time.{in_hex};
ghost use Rattle.shift_page.specs.ShiftPage.{fields, heading, report_line, total_line, ended, printable, report_checks, reports_checks, paging};

use octets::Refusal;
use status_report::SmsStatusReport;

// ---- checks

// At most 20 octets, each from 20 to 7E.
fn is_printable(text: &[u8]) -> bool
    ensures { result ≡ printable text.now }
{
    text.len() <= 20 && text.iter().all(|c| (0x20..=0x7E).contains(c))
}

// Whether a record has a line.
fn check_report(r: &SmsStatusReport) -> Result<(), Refusal>
    ensures { result ≡ found (report_checks r.now) }
{
    if !r.fits() {
        return Err(Refusal::LengthTooLarge);
    }
    if !is_printable(r.tp_recipient_address.address.as_slice()) {
        return Err(Refusal::RecipientNotPrintable);
    }
    if !time::is_time(r.tp_discharge_time.as_slice()) {
        return Err(Refusal::NotATime);
    }
    Ok(())
}

// Whether every record has a line.
fn check_reports(reports: &[SmsStatusReport]) -> Result<(), Refusal>
    ensures { result ≡ found (reports_checks reports.now) }
{
    for report in reports {
        check_report(report)?;
    }
    Ok(())
}

// ---- lines: each function writes from `at` on, and gives the place after what it wrote

fn put_both(out: &mut [u8], at: usize, first: &[u8], second: &[u8]) -> usize
    requires { at + length first.now + length second.now ≤ length out.old }
    ensures { Wrote at (first.now ++ second.now) out.old result out.new }
{
    let next = octets::put_octets(out, at, first);
    octets::put_octets(out, next, second)
}

fn put_heading(out: &mut [u8], at: usize) -> usize
    requires { at + 39 ≤ length out.old }
    ensures { Wrote at (ended (heading ∷ [])) out.old result out.new }
{
    octets::put_octets(out, at, b"RECIPIENT            ST DISCHARGE     \n")
}

// A line of a recipient from the left, a status in hexadecimal, and a discharge time.
fn put_line(out: &mut [u8], at: usize, recipient: &[u8], status: u8, discharge: &[u8]) -> usize
    requires { (length recipient.now ≤ 20) × (length discharge.now ≡ 14) × (at + 39 ≤ length out.old) }
    ensures { Wrote at (ended (fields recipient.now (in_hex status) discharge.now ∷ [])) out.old result out.new }
{
    let spaces = [b' '; 20];
    let n = recipient.len();
    let p1 = put_both(out, at, recipient, &spaces[n..]);
    let high = time::hex_digit(status / 16);
    let low = time::hex_digit(status % 16);
    let p2 = put_both(out, p1, &[b' ', high, low, b' '], discharge);
    octets::put_octet(out, p2, b'\n')
}

// The line of a record.
#[tactic(auto, using(crate::proofs::Checks::discharge_few))]
fn put_report(out: &mut [u8], at: usize, r: &SmsStatusReport) -> usize
    requires { (found (report_checks r.now) ≡ fine) × (at + 39 ≤ length out.old) }
    ensures { Wrote at (ended (report_line r.now ∷ [])) out.old result out.new }
{
    let recipient = r.tp_recipient_address.address.as_slice();
    let discharge = r.tp_discharge_time.as_slice();
    put_line(out, at, recipient, r.tp_status, discharge)
}

// The lines of records, in their order.
fn put_reports(reports: &[SmsStatusReport], out: &mut [u8], at: usize) -> usize
    requires { (found (reports_checks reports.now) ≡ fine) × (at + 39 * length reports.now ≤ length out.old) }
    ensures { Wrote at (ended (map report_line reports.now)) out.old result out.new }
{
    let mut next = at;
    for report in reports {
        next = put_report(out, next, report);
    }
    next
}

// The last line, of a number below 100.
fn put_total(out: &mut [u8], at: usize, n: usize) -> usize
    requires { (n ≤ 99) × (at + 39 ≤ length out.old) }
    ensures { Wrote at (ended (total_line n ∷ [])) out.old result out.new }
{
    let tens = if n < 10 { b' ' } else { b'0' + (n / 10) as u8 };
    let ones = b'0' + (n % 10) as u8;
    let number = [tens, ones, b'\n'];
    put_both(out, at, b"TOTAL                               ", &number)
}

// ---- the page

// Lays out records as a page, at the start of a lent output.
#[tactic(auto, using(crate::proofs::Page::many_refused))]
pub fn shift_page(reports: &[SmsStatusReport], out: &mut [u8]) -> Result<usize, Refusal>
    ensures { (result, out.new) ≡ lend (paging reports.now) out.old }
{
    let count = reports.len();
    if 99 < count {
        return Err(Refusal::TooManyRecords);
    }
    check_reports(reports)?;
    if out.len() < 39 * (count + 2) {
        return Err(Refusal::OutputTooShort);
    }
    let first = put_heading(out, 0);
    let last = put_reports(reports, out, first);
    Ok(put_total(out, last, count))
}
