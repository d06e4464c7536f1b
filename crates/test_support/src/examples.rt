//! A site of one file, captures of requests for it, and what comes of them, worked by hand from the rules.

/// `a.txt` with `hi` and a line feed, of 1994-11-06 08:49:37; the captures begin at that time.
pub static SNAPSHOT: &str = "haboob-snapshot 1\nfile 784111777 5 3\na.txt\nhi\n\nend 1\n";

/// A request for it, of 32 bytes.
pub static A: &str = "GET /a.txt HTTP/1.1\r\nHost: a\r\n\r\n";

/// The replies to that request alone.
pub static ONE_REPLY: &str = "haboob-replies 1\n\
     reply 0 0 150\n\
     HTTP/1.1 200 OK\r\n\
     Date: Sun, 06 Nov 1994 08:49:37 GMT\r\n\
     Content-Type: text/plain\r\n\
     Content-Length: 3\r\n\
     Last-Modified: Sun, 06 Nov 1994 08:49:37 GMT\r\n\
     \r\n\
     hi\n\
     \n\
     stop 1\n";

/// The replies to four such requests on one connection, of which the second and the third find no token.
pub static TIGHT_REPLIES: &str = "haboob-replies 1\n\
     reply 0 0 150\n\
     HTTP/1.1 200 OK\r\n\
     Date: Sun, 06 Nov 1994 08:49:37 GMT\r\n\
     Content-Type: text/plain\r\n\
     Content-Length: 3\r\n\
     Last-Modified: Sun, 06 Nov 1994 08:49:37 GMT\r\n\
     \r\n\
     hi\n\
     \n\
     reply 1 0 159\n\
     HTTP/1.1 503 Service Unavailable\r\n\
     Date: Sun, 06 Nov 1994 08:49:37 GMT\r\n\
     Content-Type: text/plain\r\n\
     Content-Length: 24\r\n\
     Retry-After: 1\r\n\
     \r\n\
     503 Service Unavailable\n\
     \n\
     reply 2 0 159\n\
     HTTP/1.1 503 Service Unavailable\r\n\
     Date: Sun, 06 Nov 1994 08:49:37 GMT\r\n\
     Content-Type: text/plain\r\n\
     Content-Length: 24\r\n\
     Retry-After: 1\r\n\
     \r\n\
     503 Service Unavailable\n\
     \n\
     reply 3 0 150\n\
     HTTP/1.1 200 OK\r\n\
     Date: Sun, 06 Nov 1994 08:49:38 GMT\r\n\
     Content-Type: text/plain\r\n\
     Content-Length: 3\r\n\
     Last-Modified: Sun, 06 Nov 1994 08:49:37 GMT\r\n\
     \r\n\
     hi\n\
     \n\
     stop 4\n";

/// The report of those, each with a service of 201 ticks.
pub static TIGHT_REPORT: &str = "haboob-report 1\n\
     messages 4\n\
     bypassed 0\n\
     admitted 2\n\
     rejected 2\n\
     status 200 2\n\
     status 301 0\n\
     status 304 0\n\
     status 400 0\n\
     status 404 0\n\
     status 405 0\n\
     status 413 0\n\
     status 501 0\n\
     status 503 2\n\
     p50 201\n\
     p90 201\n\
     p99 201\n\
     controls 0\n\
     reject 1\n\
     reject 2\n\
     end\n";

/// A capture of one such request, and of the end of its connection, in version 1.
pub static OLDER: &str =
    "haboob-capture 1 784111777\npiece 0 0 32\nGET /a.txt HTTP/1.1\r\nHost: a\r\n\r\n\nend 5 0\nstop 2\n";

/// The same in version 2.
pub static NEWER: &str =
    "haboob-capture 2 784111777\npiece 0 0 32\nGET /a.txt HTTP/1.1\r\nHost: a\r\n\r\n\nend 5 0\nstop 2\n";
