//! The vectors of RFC 4231, and how many bytes a secret has. Whole handshakes are cases of `server_golden`.

use peer_proof::{Secret, SecretFault, hmac_sha256};
use std::test::Fail;

/// Cases 1 to 4, 6 and 7 of RFC 4231: the message, and the mac.
const VECTORS: [(&[u8], &str); 6] = [
    (
        b"Hi There",
        "b0344c61d8db38535ca8afceaf0bf12b881dc200c9833da726e9376c2e32cff7",
    ),
    (
        b"what do ya want for nothing?",
        "5bdcc146bf60754e6a042426089575c75a003f089d2739839dec58b964ec3843",
    ),
    (
        &[0xdd; 50],
        "773ea91e36800e46854db8ebd09181a72959098b3ef8c122d9635514ced565fe",
    ),
    (
        &[0xcd; 50],
        "82558a389a443c0ea4cc819899f2083a85f0faa3e578f8077a2e3ff46729665b",
    ),
    (
        b"Test Using Larger Than Block-Size Key - Hash Key First",
        "60e431591ee0b67f0d8a26aacbf5b77f8e0bc6213728c5140546040f0ee37f54",
    ),
    (
        b"This is a test using a larger than block-size key and a larger than block-size data. \
          The key needs to be hashed before being used by the HMAC algorithm.",
        "9b09ffa71b942fcb27635fbcd5b0e944bfdc63644f0713938a7f51535c3a35e2",
    ),
];

/// Their keys.
const KEYS: [&[u8]; 6] = [
    &[0x0b; 20],
    b"Jefe",
    &[0xaa; 20],
    &[
        1, 2, 3, 4, 5, 6, 7, 8, 9, 10, 11, 12, 13, 14, 15, 16, 17, 18, 19, 20, 21, 22, 23, 24, 25,
    ],
    &[0xaa; 131],
    &[0xaa; 131],
];

#[test]
fn vectors_of_rfc_4231(rt: HostRuntime) -> Result<(), Fail> {
    for place in 0..VECTORS.len() {
        let (message, mac) = VECTORS[place];
        let digits = hex::encode(rt.alloc(), &hmac_sha256(KEYS[place], message))?;
        assert_eq!(rt; digits.as_str(), mac);
    }
    Ok(())
}

/// Whether these bytes are no secret, and why.
fn is_refused(bytes: &[u8], fault: SecretFault) -> bool {
    match Secret::read(bytes) {
        Ok(_) => false,
        Err(other) => other == fault,
    }
}

#[test]
fn a_secret_has_16_to_4096_bytes(rt: HostRuntime) {
    assert!(rt; is_refused(b"", SecretFault::TooShort));
    assert!(rt; is_refused(b"0123456789abcde\n", SecretFault::TooShort));
    assert!(rt; Secret::read(b"0123456789abcde\n\n").is_ok());
    assert!(rt; Secret::read(&[b'x'; 4_096]).is_ok());
    assert!(rt; is_refused(&[b'x'; 4_097], SecretFault::TooLong));
}
