//! Request heads, as the clients of a gateway send them.

use crate::random::Random;
use std::alloc::{AllocError, Global};

/// A program that sends requests, by the header lines that all its requests have.
#[derive(Clone, Copy, Drop)]
pub(crate) enum Client {
    Curl,
    Tuspy,
    /// A browser, through a proxy.
    Browser,
}

impl Client {
    /// One of them.
    pub(crate) fn drawn(random: &mut Random) -> Self {
        match random.below(3) {
            0 => Client::Curl,
            1 => Client::Tuspy,
            _ => Client::Browser,
        }
    }

    fn lines(self) -> &'static str {
        match self {
            Client::Curl => {
                "Host: texts.example.org:1080\r\nUser-Agent: curl/8.5.0\r\nAccept: */*\r\n"
            }
            Client::Tuspy => {
                "Host: texts.example.org:1080\r\nUser-Agent: python-requests/2.31.0\r\n\
                 Accept-Encoding: gzip, deflate\r\nAccept: */*\r\nConnection: keep-alive\r\n"
            }
            Client::Browser => {
                "Host: texts.example.org\r\nX-Real-IP: 203.0.113.77\r\nX-Forwarded-For: 203.0.113.77\r\n\
                 X-Forwarded-Proto: https\r\nX-Forwarded-Host: texts.example.org\r\n\
                 User-Agent: Mozilla/5.0 (X11; Linux x86_64; rv:128.0) Gecko/20100101 Firefox/128.0\r\n\
                 Accept: */*\r\nAccept-Language: de,en-US;q=0.7,en;q=0.3\r\n\
                 Accept-Encoding: gzip, deflate, br, zstd\r\nReferer: https://texts.example.org/upload\r\n\
                 Origin: https://texts.example.org\r\nSec-Fetch-Dest: empty\r\nSec-Fetch-Mode: cors\r\n\
                 Sec-Fetch-Site: same-origin\r\nPriority: u=4\r\n"
            }
        }
    }
}

/// The heads of one client's requests, each made in the same memory.
#[derive(Drop)]
pub(crate) struct Heads {
    client: Client,
    text: String,
}

impl Heads {
    pub(crate) fn new(alloc: Global, client: Client) -> Self {
        Heads {
            client,
            text: String::new(alloc),
        }
    }

    /// A POST of an upload of this length, with these metadata.
    pub(crate) fn post(&mut self, len: usize, metadata: &str) -> Result<&[u8], AllocError> {
        self.begin("POST /files")?;
        write!(
            self.text,
            "Upload-Length: {len}\r\nUpload-Metadata: {metadata}\r\n\r\n"
        )?;
        Ok(self.text.as_bytes())
    }

    /// A POST of an upload of this length from one encoding to another, whose labels are given in Base64.
    pub(crate) fn post_from(
        &mut self,
        len: usize,
        from: &str,
        to: &str,
    ) -> Result<&[u8], AllocError> {
        self.begin("POST /files")?;
        write!(
            self.text,
            "Upload-Length: {len}\r\nUpload-Metadata: from {from},to {to}\r\n\r\n"
        )?;
        Ok(self.text.as_bytes())
    }

    /// A head of these lines, with the number of a request.
    pub(crate) fn refused(&mut self, lines: &str, request: u64) -> Result<&[u8], AllocError> {
        self.text.clear();
        write!(self.text, "{lines}X-Request-Id: {request}\r\n\r\n")?;
        Ok(self.text.as_bytes())
    }

    /// A PATCH of an upload from an offset on, with a body of this length.
    pub(crate) fn patch(
        &mut self,
        number: u64,
        offset: usize,
        len: usize,
    ) -> Result<&[u8], AllocError> {
        self.begin_at("PATCH", number)?;
        write!(
            self.text,
            "Upload-Offset: {offset}\r\nContent-Type: application/offset+octet-stream\r\n\
             Content-Length: {len}\r\n\r\n"
        )?;
        Ok(self.text.as_bytes())
    }

    /// A request without fields of its own for an upload: HEAD, GET or DELETE.
    pub(crate) fn ask(&mut self, method: &str, number: u64) -> Result<&[u8], AllocError> {
        self.begin_at(method, number)?;
        self.text.push_str("\r\n")?;
        Ok(self.text.as_bytes())
    }

    fn begin_at(&mut self, method: &str, number: u64) -> Result<(), AllocError> {
        self.text.clear();
        write!(self.text, "{method} /files/{number}")?;
        self.common()
    }

    fn begin(&mut self, target: &str) -> Result<(), AllocError> {
        self.text.clear();
        self.text.push_str(target)?;
        self.common()
    }

    fn common(&mut self) -> Result<(), AllocError> {
        self.text.push_str(" HTTP/1.1\r\n")?;
        self.text.push_str(self.client.lines())?;
        self.text.push_str("Tus-Resumable: 1.0.0\r\n")
    }
}
