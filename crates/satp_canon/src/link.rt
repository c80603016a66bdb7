ghost use Rattle.std.specs.Prelude.{◌≡◌, codes, false, Some, IfSome, is_some};
ghost use Rattle.satp_canon.specs.FirstFault.{is_link};
ghost use Rattle.satp_base.specs.Chains.{link_of};
ghost use Rattle.satp_base.specs.Forms.{IsLink};
ghost use Rattle.satp_base.specs.declared.message.Link.{Link};
ghost use Rattle.satp_base.specs.Canonical.{link_text};

use base64::engine::general_purpose::URL_SAFE_NO_PAD;
use satp_base::Link;
use sha2::{Digest, Sha256};

/// The link of a text.
pub fn link_of(text: &[u8]) -> Link
    ensures { result ≡ link_of text.now }
{
    Link(Sha256::digest(text))
}

/// The base64url of a link, without padding (RFC 4648, section 5).
pub fn link_text(link: &Link) -> [u8; 43]
    ensures { result ≡ link_text link.now }
{
    let mut text = [0; 43];
    let bytes = link.0;
    let _length = URL_SAFE_NO_PAD.encode_slice(&bytes, &mut text);
    text
}

/// The link that a text names, where it is the base64url of one.
pub fn link_read(text: &[u8]) -> Option<Link>
    ensures found { IfSome result (λ link. IsLink link × (text.now ≡ link_text link)) }
    ensures all { (link : Link) → IsLink link → text.now ≡ link_text link → result ≡ Some link }
    ensures form { is_some result ≡ is_link text.now }
{
    let mut bytes = [0; 32];
    match URL_SAFE_NO_PAD.decode_slice(text, &mut bytes) {
        Ok(length) => {
            if length == 32 {
                Some(Link(bytes))
            } else {
                None
            }
        }
        Err(_) => None,
    }
}
