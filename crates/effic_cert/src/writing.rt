//! The writing of a certificate's text.
ghost use Rattle.std.specs.Prelude.{◌≡◌, ◌≤◌, IfOk, codes};
ghost use Rattle.cert_lines.specs.Numbers.{number_text};
ghost use Rattle.cert_lines.specs.Rows.{keyed, span, line_text, rows_text};
ghost use Rattle.effic_cert.specs.inner.Parts.{version_row};
ghost use Rattle.cert_text.specs.Sent.{Puts};
ghost use Rattle.line_rules.specs.Products.{IsSayable};
ghost use Rattle.effic_cert.specs.Product.{asked_rows, bound_rows, balance_rows, product_text};

use crate::version::{Version, version_of};
use cert_text::{KeptText, Output, put_keyed, put_kind, put_list, put_number, put_seats, put_text};
use line_rules::EfficCert;
use std::alloc::{AllocError, Global};

// Puts a number, without a needless 0 in front.
fn put_wide<O: Output>(out: &mut O, n: u128)
    ensures { Puts O.told (O.sent out.old) (number_text n) (O.sent out.new) }
{
    if n < 10 {
        out.put(b'0' + n as u8);
        return;
    }
    put_wide(out, n / 10);
    out.put(b'0' + (n % 10) as u8);
}

// Puts the line of a word and a wide number.
fn put_bound<O: Output>(out: &mut O, key: &[u8], n: u128)
    ensures { Puts O.told (O.sent out.old) (line_text (keyed key.now n)) (O.sent out.new) }
{
    put_text(out, key);
    out.put(b' ');
    put_wide(out, n);
    out.put(b'\n');
}

// Puts the line of the range of stations.
fn put_ends<O: Output>(out: &mut O, least: u32, most: u32)
    ensures { Puts O.told (O.sent out.old) (line_text (span (codes "stations") least most)) (O.sent out.new) }
{
    put_text(out, b"stations ");
    put_number(out, u64::from(least));
    out.put(b' ');
    put_number(out, u64::from(most));
    out.put(b'\n');
}

// Puts the first line of a version.
fn put_first<O: Output>(out: &mut O, version: Version)
    ensures { Puts O.told (O.sent out.old) (line_text (version_row version)) (O.sent out.new) }
{
    put_text(out, version.text());
    out.put(b'\n');
}

// Puts the lines up to the numbers of stations that are asked for.
fn put_asked<O: Output>(out: &mut O, cert: &EfficCert)
    ensures { Puts O.told (O.sent out.old) (rows_text (asked_rows cert.now)) (O.sent out.new) }
{
    put_kind(out, cert.kind);
    put_keyed(out, b"tasks", u64::from(cert.tasks));
    put_ends(out, cert.least_m, cert.most_m);
}

// Puts the lines of the cycle and of the bounds on the product.
fn put_bounds<O: Output>(out: &mut O, cert: &EfficCert)
    ensures { Puts O.told (O.sent out.old) (rows_text (bound_rows cert.now)) (O.sent out.new) }
{
    put_keyed(out, b"cycle", cert.cycle);
    put_bound(out, b"lower", cert.lower);
    put_bound(out, b"upper", cert.upper);
}

// Puts the lines of the balance.
fn put_balance<O: Output>(out: &mut O, cert: &EfficCert)
    ensures { Puts O.told (O.sent out.old) (rows_text (balance_rows cert.now)) (O.sent out.new) }
{
    put_keyed(out, b"balance", u64::from(cert.balance.stations));
    put_seats(out, cert.kind, cert.balance.place.as_slice());
}

// Puts the lines of a certificate, in version 2 where an entry is by pairs, else in version 1.
fn put_product<O: Output>(out: &mut O, cert: &EfficCert)
    requires { cert.now.tasks ≤ 1024 }
    ensures { Puts O.told (O.sent out.old) (product_text cert.now) (O.sent out.new) }
{
    put_first(out, version_of(&cert.entries));
    put_asked(out, cert);
    put_bounds(out, cert);
    put_balance(out, cert);
    put_list(out, &cert.entries, &cert.trail, cert.tasks);
    put_text(out, b"end\n");
}

/// The text of a certificate within its ranges. An error where memory is out.
pub fn write_effic(alloc: Global, cert: &EfficCert) -> Result<Vec<u8>, AllocError>
    requires { IsSayable cert.now }
    ensures { IfOk result (λ bytes. bytes.items ≡ product_text cert.now) }
{
    let mut text = KeptText::new(alloc);
    put_product(&mut text, cert);
    text.finish()
}
